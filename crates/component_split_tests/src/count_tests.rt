use crate::modules::graph_of;
use component_split::count_nodes;
use std::alloc::Global;
use std::test::Fail;

/// The functions of a module, whether `noinline` has no effect, a limit, and the count of nodes, `-` where it exceeds the limit.
const COUNTS: &str = "+||1|1
+,1 -||3|3
+,1 -||2|-
+,1,1 -||7|7
+,1,1 -||6|-
+,1,1 -||0|-
+,1 +||100|3
+,1,2 -,1 -,3 -,2||100|11
+ -,2 -||100|1
+,1,1,2 - -,3,3 -||51|51
+,1,1,2 - -,3,3 -||50|-
+,1,1 -,2,2 -,3,3 -,4,4 -||1000000|407
+,1 -,1||100|3
+,1 !||100|1
+,1 !|free|100|3";

fn counted(alloc: Global, row: &str, free: bool, limit: u32) -> Result<String, Fail> {
    let g = graph_of(alloc, row, free)?;
    match count_nodes(alloc, &g, limit)? {
        Some(count) => Ok(format!(in alloc; "{count}")?),
        None => Ok(String::from_str(alloc, "-")?),
    }
}

#[test]
fn counts_of_rows(rt: HostRuntime) -> Result<(), Fail> {
    let alloc = rt.alloc();
    for line in COUNTS.lines() {
        let (row, rest) = line.split_once('|').ok_or("no functions")?;
        let (free, rest) = rest.split_once('|').ok_or("no word")?;
        let (limit, count) = rest.split_once('|').ok_or("no limit")?;
        let limit = limit.parse::<u32>().map_err(|_| "no number")?;
        let found = counted(alloc, row, free == "free", limit)?;
        assert_eq!(rt; found.as_str(), count, "{line}");
    }
    Ok(())
}

/// `main`, and so many functions of which each calls the next twice.
fn chain(alloc: Global, count: u32) -> Result<String, Fail> {
    let mut row = String::from_str(alloc, "+,1,1")?;
    for at in 1..count {
        let next = at + 1;
        write!(row, " -,{next},{next}")?;
    }
    row.push_str(" -")?;
    Ok(row)
}

/// `main`, which calls each fourth function from the first on, and so many functions in groups of four: the first is `noinline` and
/// calls the second, which calls the third twice, which calls the fourth. The last function calls nothing.
fn groups(alloc: Global, count: u32) -> Result<String, Fail> {
    let mut row = String::from_str(alloc, "+,1")?;
    for at in 5..count.saturating_add(1) {
        if at % 4 == 1 {
            write!(row, ",{at}")?;
        }
    }
    for at in 1..count.saturating_add(1) {
        push_grouped(&mut row, at, count)?;
    }
    Ok(row)
}

fn push_grouped(row: &mut String, at: u32, count: u32) -> Result<(), Fail> {
    let next = at.saturating_add(1);
    row.push_str(if at % 4 == 1 { " !" } else { " -" })?;
    if at % 4 == 0 || at == count {
        return Ok(());
    }
    if at % 4 == 2 {
        write!(row, ",{next},{next}")?;
    } else {
        write!(row, ",{next}")?;
    }
    Ok(())
}

#[test]
fn counts_of_groups(rt: HostRuntime) -> Result<(), Fail> {
    let alloc = rt.alloc();
    for (count, nodes) in [(1, "1"), (4, "39"), (400, "3702"), (2_000, "18502")] {
        let row = groups(alloc, count)?;
        let found = counted(alloc, row.as_str(), false, 20_000)?;
        assert_eq!(rt; found.as_str(), nodes, "of {count} functions");
    }
    Ok(())
}

#[test]
fn a_chain_has_too_many_nodes(rt: HostRuntime) -> Result<(), Fail> {
    let alloc = rt.alloc();
    let row = chain(alloc, 400)?;
    assert_eq!(rt; counted(alloc, row.as_str(), false, 5_000)?.as_str(), "-");
    Ok(())
}

/// An edge of a graph whose nodes are the numbers from 0.
#[derive(Clone, Copy)]
pub struct Edge {
    pub from: usize,
    pub to: usize,
}

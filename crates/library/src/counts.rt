// How many classes, members and nodes a library holds.
#[derive(Clone, Copy)]
pub struct Counts {
    pub classes: usize,
    pub members: usize,
    pub nodes: usize,
}

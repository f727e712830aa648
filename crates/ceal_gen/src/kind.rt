// The kinds of workloads.

/// What a workload is made of.
#[derive(Clone, Copy, PartialEq, Eq, Debug)]
pub enum Workload {
    /// a list, each of whose elements is multiplied by ten
    List,
    /// a tree of operators, whose value is computed
    Tree,
}

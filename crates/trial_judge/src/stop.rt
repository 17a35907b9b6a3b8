// With what a batch stops: a length or the head is wrong, a branch row or a name, a record or a place; the bytes end inside a request, it
// asks for nothing, what it does not use is set, its answer does not fit; the live disk or a mark is wrong.
#[derive(Clone, Copy, PartialEq, Eq)]
pub(crate) enum Stop {
    Head = 1,
    Rows,
    Records,
    Short = 11,
    Operation,
    Spare,
    Space,
    Disk = 18,
}

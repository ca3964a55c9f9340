// The numbers from `lo` to `hi`, both ends included. A fact is one: the datum lies there. (`RangeInclusive` is no `Copy`, as
// facts have to be.)
#[derive(Clone, Copy)]
pub struct Range {
    pub lo: i32,
    pub hi: i32,
}

// Holds when the count and the datum lie in their ranges.
#[derive(Clone, Copy)]
pub struct Guard {
    pub count: Range,
    pub datum: Range,
}

// What becomes of the count; sums stop at both ends of the signed words.
#[derive(Clone, Copy)]
pub enum Action {
    Nothing,
    Add(i32),
    AddDatum,
    Set(i32),
}

// Which users a datum may be. No user is 0, so `Only(0)` is met by none and `Except(0)` by all.
#[derive(Clone, Copy)]
pub enum Fact {
    Any,
    Only(u16),
    Except(u16),
}

// What is asked of the holder and the datum. `NotHolder` is true as well when nobody holds.
#[derive(Clone, Copy)]
pub enum Guard {
    True,
    IsHolder,
    NotHolder,
    Nobody,
    Somebody,
    User(u16),
}

// What becomes of the holder: it stays, the datum becomes it, or nobody holds.
#[derive(Clone, Copy)]
pub enum Action {
    Nothing,
    Take,
    Clear,
}

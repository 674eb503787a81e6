// The kinds of lines that have a letter.
#[derive(Clone, Copy)]
pub(crate) enum CallKind {
    Ask,
    Finish,
    MobileHears,
    MobileTimer,
    StationHearsAir,
    StationHearsWire,
    StationTimer,
    RadioLoss,
    AnchorHears,
    Release,
}

#[derive(Clone, Copy)]
pub(crate) enum Kind {
    Settings,
    Role,
    Mobile,
    Call(CallKind),
}

// Why the cover of a window is refused.
ghost use Rattle.figure.specs.Refusal.{fault_number};
ghost use Rattle.std.specs.Prelude.{◌≡◌};

#[derive(Clone, Copy, PartialEq, Eq, Debug)]
pub enum FigureFault {
    /// The percent lies outside 1 to 100.
    Percent,
    /// The window has more than 4,096 figures.
    Window,
}

impl FigureFault {
    /// The refusal's number.
    // A rule of the project: each refusal has a number, and each layer tells it in this form. Within, the fault itself is
    // passed on.
    pub fn number(self) -> u8
        ensures { result ≡ fault_number self }
    {
        match self {
            FigureFault::Percent => 27,
            FigureFault::Window => 28,
        }
    }
}

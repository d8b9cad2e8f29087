// Windows, offsets and places are told apart by their types: handing over one of them where another is asked for is an error
// of the compiler's. Follows docs/RULES.md, "Sizes". The types cost nothing; a distance is one comparison and one subtraction.

ghost use Rattle.std.specs.Prelude.{◌≡◌};
ghost use Rattle.order.specs.Agree.{distance};

// Where a window starts in the trace.
#[derive(Clone, Copy)]
pub struct Window(pub usize);

// How far apart two windows start.
#[derive(Clone, Copy)]
pub struct Offset(pub usize);

// A place in the pattern, counted from 0.
#[derive(Clone, Copy)]
pub struct Place(pub usize);

impl Offset {
    // The distance of two windows, whichever starts first.
    pub fn between(x: Window, y: Window) -> Offset
        ensures { result.0 ≡ distance x.0 y.0 }
    {
        Offset(x.0.abs_diff(y.0))
    }
}

//! Laws about what a page puts out.
ghost use Rattle.std.specs.Prelude.{◌≡◌, ℕ, List, [], ◌++◌};
ghost use Rattle.std.specs.List.{concat};
ghost use Rattle.t3_console.specs.Rendering.{rendering, closed_rendering};
ghost use Rattle.t3_console.specs.Output.{pieces_out, rest_out, close_out};

/// However a text is cut into the pieces in which it is said, what they put out one after the other, and then
/// the rest, is the text on its lines; and with its last line ended where the page is closed.
pub fn one_rendering()
    ensures rest { (width : ℕ) (pieces : List (List ℕ))
        → pieces_out width [] pieces ++ rest_out width (concat pieces)
        ≡ rendering width (concat pieces) }
    ensures close { (width : ℕ) (pieces : List (List ℕ))
        → pieces_out width [] pieces ++ close_out width (concat pieces)
        ≡ closed_rendering width (concat pieces) }
{}

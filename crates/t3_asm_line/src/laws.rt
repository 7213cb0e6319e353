//! A listing reads back.
ghost use Rattle.std.specs.Prelude.{◌≡◌, List, Ok, Some, map};
ghost use Rattle.t3_asm_line.specs.Fields.{layout_of};
ghost use Rattle.t3_asm_line.specs.Line.{line_of, parsed_line};
ghost use Rattle.t3_asm_line.specs.Listing.{spelled, listed_line, FitsIn, IsListed, IsListedLine, listing_of};
ghost use Rattle.std.specs.List.{AllByRecursion};
ghost use Rattle.t3_asm_line.specs.Lines.{lines_of};
ghost use Rattle.t3_asm_line.specs.declared.line.ParsedLine.{ParsedLine as AnyLine};
ghost use Rattle.t3_asm_line.specs.Values.{value_of};
ghost use Rattle.t3_asm_line.specs.declared.argument.Argument.{Argument as AnyArgument};
ghost use Rattle.t3_asm_line.specs.declared.field.Field.{Field as AnyField};
ghost use Rattle.t3_asm_line.specs.declared.keyword.Keyword.{Keyword as AnyKeyword};

/// What a listing spells reads back: in each field the argument, of each line the keyword with its
/// arguments, and of a whole listing its lines.
pub fn lines_read()
    ensures fields { (field : AnyField) (argument : AnyArgument) → FitsIn (layout_of field) argument
        → value_of field (spelled field argument) ≡ Ok argument }
    ensures lines { (keyword : AnyKeyword) (arguments : List AnyArgument)
        → IsListed keyword arguments
        → line_of (listed_line keyword arguments) ≡ Ok (Some (parsed_line keyword arguments)) }
    ensures listing { (lines : List AnyLine) → AllByRecursion IsListedLine lines
        → map line_of (lines_of (listing_of lines)) ≡ map (λ line. Ok (Some line)) lines }
{}

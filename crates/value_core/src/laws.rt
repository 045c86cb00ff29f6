//! The laws of the definitions. Each function is its clause, and does nothing when it runs.
ghost use Rattle.value_core.specs.Laws.{RestIsNear, PiecesAreLines, PartsAreAList, NamesDiffer, ByteOrderIsTextOrder};

/// What a division leaves is 0 or has the divisor's sign, and is nearer to 0 than the divisor.
pub fn rest_is_near()
    ensures { RestIsNear }
{}

/// The pieces of input are lines: each ends with its only line feed, but the last may have none and is then not empty. Joined they are the bytes.
pub fn pieces_are_lines()
    ensures { PiecesAreLines }
{}

/// The parts of a tuple and a list of values are each got back from the other.
pub fn parts_are_a_list()
    ensures { PartsAreAList }
{}

/// No two exception classes have one name.
pub fn names_differ()
    ensures { NamesDiffer }
{}

/// Texts stand in the same order by their bytes as by their code points.
pub fn byte_order_is_text_order()
    ensures { ByteOrderIsTextOrder }
{}

//! Laws of the definitions. The functions do nothing: the contract of each is a law.
ghost use Rattle.ndjson_read.specs.Laws.{LinesInAnyOrder, OneErrorComes, OneTypeComes, TypeOrError, ValuesInAnyOrder};

/// The same lines in another order have the same type, but for the order of fields. A line may stand
/// more than once. Where lines stand for values, they do in any order, so that `infer_iter` answers no
/// error of them but `OutOfMemory` (its clause `complete`).
pub fn lines_in_any_order()
    ensures data_type { LinesInAnyOrder }
    ensures values { ValuesInAnyOrder }
{}

/// Of any bytes `infer` answers one type or one error at most, for one number of rows and one limit,
/// where the sources tell these bytes and don't fail: `OutOfMemory` may come instead.
pub fn one_answer()
    ensures error { OneErrorComes }
    ensures either { TypeOrError }
    ensures data_type { OneTypeComes }
{}

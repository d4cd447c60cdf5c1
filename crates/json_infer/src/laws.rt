//! Laws of the definitions. The functions do nothing: the contract of each is a law.
ghost use Rattle.json_infer.specs.Laws.{AnyOrder, CoercionRules, OneAtATime, RowsInAnyOrder};

/// The rules of coercion hold of every list of types, and of the parts of the types.
pub fn coercion_rules()
    ensures { CoercionRules }
{}

/// The same types in another order are coerced to the same type, but for the order of fields. Each
/// type stands once among them.
pub fn any_order()
    ensures { AnyOrder }
{}

/// The same rows in another order have the same type, but for the order of fields. A row may stand
/// more than once.
pub fn rows_in_any_order()
    ensures { RowsInAnyOrder }
{}

/// Types can come one at a time: what is kept of them tells what the distinct ones are coerced to.
pub fn one_at_a_time()
    ensures { OneAtATime }
{}

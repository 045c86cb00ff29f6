//! The laws. Each function is its clause, and does nothing when it runs.
ghost use Rattle.py_check_overrides.specs.Laws.{AllAgreeWhereNoneFails, MembersAgreeWhereNoneClashes};

/// Where all classes of a module have types and none fails, all definitions of a member along the order of a class agree.
pub fn all_agree_where_none_fails()
    ensures { AllAgreeWhereNoneFails }
{}

/// Where no definition along a row of classes differs from the first of its name, the members of these classes agree as in a well-typed
/// module.
pub fn members_agree_where_none_clashes()
    ensures { MembersAgreeWhereNoneClashes }
{}

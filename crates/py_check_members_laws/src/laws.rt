//! The laws. The calls do nothing.
ghost use Rattle.py_check_members_laws.specs.Laws.{MethodsAreFunctions, NamesDiffer, NewFunctionsAreMethods, PlainClassesHaveMethodsAlone};

/// No two members of a class have one name.
pub fn names_of_members_differ()
    ensures { NamesDiffer }
{}

/// A class that declares no attribute and defines no `__init__` has methods alone.
pub fn plain_classes_have_methods_alone()
    ensures { PlainClassesHaveMethodsAlone }
{}

/// The number of a method is that of a function of its name and its class.
pub fn methods_are_functions()
    ensures { MethodsAreFunctions }
{}

/// Where each def of a class has a name that is new there, each of its functions is its method.
pub fn new_functions_are_methods()
    ensures { NewFunctionsAreMethods }
{}

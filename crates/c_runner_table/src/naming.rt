//! What lines name, found once before a run: the places of labels, what is called, and the numbers of globals and classes; and the
//! functions of classes.
ghost use Rattle.std.specs.Prelude.{◌≡◌, List, IfOk, Some, None, map, slice_get};
ghost use Rattle.std.specs.HashMap.{get_by};
ghost use Rattle.std.specs.Str.{bytes_eq};
ghost use Rattle.c_core.specs.declared.code.CFunc.{CFunc};
ghost use Rattle.c_core.specs.declared.code.Code as machine_code;
ghost use Rattle.c_core.specs.declared.code.Line.{Line};
ghost use Rattle.c_core.specs.Arguments.{number_of_global, number_of_class};
ghost use Rattle.c_core.specs.Functions.{label_places, number_of, function_named};
ghost use Rattle.c_runner_table.specs.declared.naming.Named.TheVariants.{Nothing};
ghost use Rattle.c_runner_table.specs.Targets as spec;
ghost use Rattle.c_runner_table.specs.Targets.{AreNumbers, AreGlobals, AreClasses, callee_of, global_in, class_in, named_of, target_of, targets_of, lines_of, functions_of, table_of};

use c_core::{CArg, CClass, CFunc, Code, Kind, Line, Prim};
use std::alloc::Global;
use std::collections::HashMap;
use value_core::{Many, Memory, Name};

/// What was found before a run: what the lines of each function name, and the functions of each class.
#[derive(Drop)]
pub struct Tables {
    pub lines: Many<Many<Target>>,
    pub classes: Many<Methods>,
}

/// The functions of a class by their numbers, those of its own methods and for each trait those of the trait's, each where it is
/// found.
#[derive(Drop)]
pub struct Methods {
    pub own: Many<Option<usize>>,
    pub traits: Many<Many<Option<usize>>>,
}

/// What a line names: the places of its first label and of its second, what it calls, and what its first argument names,
/// each where there is one.
#[derive(Clone, Copy)]
pub struct Target {
    pub first: Option<usize>,
    pub second: Option<usize>,
    pub callee: Option<Callee>,
    pub named: Named,
}

/// What the first argument of a call names, by its number.
#[derive(Clone, Copy)]
pub enum Named {
    Nothing,
    Global(usize),
    Class(usize),
}

impl Named {
    /// The number of the global that is named, if one is.
    pub fn global(self) -> Option<usize>
        ensures { result ≡ global_in self }
    {
        match self {
            Named::Global(number) => Some(number),
            _ => None,
        }
    }

    /// The number of the class that is named, if one is.
    pub fn class(self) -> Option<usize>
        ensures { result ≡ class_in self }
    {
        match self {
            Named::Class(number) => Some(number),
            _ => None,
        }
    }
}

/// What is called: a primitive, or the function of a number.
#[derive(Clone, Copy)]
pub enum Callee {
    Primitive(Prim),
    Function(usize),
}

/// What the lines of each function of a code name, and the functions of each class.
pub fn table(alloc: Global, code: &Code) -> Result<Tables, Memory>
    ensures { IfOk result (λ table. table ≡ table_of code.now) }
{
    let numbers = numbers_of(alloc, code.funcs.as_slice())?;
    table_by(alloc, code, &numbers)
}

/// The same, where the functions have these numbers.
fn table_by(alloc: Global, code: &Code, numbers: &HashMap<&str, usize>) -> Result<Tables, Memory>
    requires { AreNumbers code.now.funcs (λ q. get_by (λ k. bytes_eq q k.now) numbers.now) }
    ensures { IfOk result (λ table. table ≡ table_of code.now) }
{
    let lines = named_by_lines(alloc, code, numbers)?;
    let classes = functions_by_class(alloc, numbers, code.classes.as_slice())?;
    Ok(Tables { lines, classes })
}

/// What the lines of each function name, where the functions have these numbers.
fn named_by_lines(
    alloc: Global,
    code: &Code,
    numbers: &HashMap<&str, usize>,
) -> Result<Many<Many<Target>>, Memory>
    requires { AreNumbers code.now.funcs (λ q. get_by (λ k. bytes_eq q k.now) numbers.now) }
    ensures { IfOk result (λ named. named ≡ lines_of code.now) }
{
    let functions = code.funcs.as_slice();
    let variables = code.globals.as_slice();
    let declared = code.classes.as_slice();
    let globals = globals_of(alloc, variables)?;
    let classes = classes_of(alloc, declared)?;
    let mut named = Many::new(alloc);
    for function in functions {
        let lines = function.lines.as_slice();
        named.push(targets(alloc, numbers, &globals, &classes, lines)?)?;
    }
    Ok(named)
}

/// The functions of each class, where the functions have these numbers.
fn functions_by_class(
    alloc: Global,
    numbers: &HashMap<&str, usize>,
    classes: &[CClass],
) -> Result<Many<Methods>, Memory>
    ensures { IfOk result (λ found. (functions : List CFunc) → AreNumbers functions (λ q. get_by (λ k. bytes_eq q k.now) numbers.now) →
        found ≡ map (functions_of functions) classes.now) }
{
    let mut found = Many::new(alloc);
    for class in classes {
        found.push(class_functions(alloc, numbers, class)?)?;
    }
    Ok(found)
}

/// The functions of one class.
fn class_functions(
    alloc: Global,
    numbers: &HashMap<&str, usize>,
    class: &CClass,
) -> Result<Methods, Memory>
    ensures { IfOk result (λ found. (functions : List CFunc) → AreNumbers functions (λ q. get_by (λ k. bytes_eq q k.now) numbers.now) →
        found ≡ functions_of functions class.now) }
{
    let own = functions_named(alloc, numbers, class.methods.as_slice())?;
    let traits = functions_by_trait(alloc, numbers, class.traits.as_slice())?;
    Ok(Methods { own, traits })
}

/// The functions that a class has for each trait.
fn functions_by_trait(
    alloc: Global,
    numbers: &HashMap<&str, usize>,
    traits: &[(Name, Many<Name>)],
) -> Result<Many<Many<Option<usize>>>, Memory>
    ensures { IfOk result (λ found. (functions : List CFunc) → AreNumbers functions (λ q. get_by (λ k. bytes_eq q k.now) numbers.now) →
        found ≡ map (λ t. map (number_of functions) t.1) traits.now) }
{
    let mut found = Many::new(alloc);
    for entry in traits {
        found.push(functions_named(alloc, numbers, entry.1.as_slice())?)?;
    }
    Ok(found)
}

/// The numbers of functions, each where there is one of the name.
fn functions_named(
    alloc: Global,
    numbers: &HashMap<&str, usize>,
    names: &[Name],
) -> Result<Many<Option<usize>>, Memory>
    ensures { IfOk result (λ found. (functions : List CFunc) → AreNumbers functions (λ q. get_by (λ k. bytes_eq q k.now) numbers.now) →
        found ≡ map (number_of functions) names.now) }
{
    let mut found = Many::new(alloc);
    for name in names {
        found.push(number_of(numbers, name.as_str()))?;
    }
    Ok(found)
}

/// The numbers of functions by their names; of several with one name the first counts.
fn numbers_of<'a>(alloc: Global, functions: &'a [CFunc]) -> Result<HashMap<&'a str, usize>, Memory>
    ensures { IfOk result (λ numbers. AreNumbers functions.now (λ q. get_by (λ k. bytes_eq q k.now) numbers)) }
{
    let mut numbers = HashMap::new(alloc);
    let mut number = functions.len();
    while number > 0 {
        number -= 1;
        numbers.insert(functions[number].name.as_str(), number)?;
    }
    Ok(numbers)
}

/// The numbers of globals by their names; of several with one name the first counts.
fn globals_of(alloc: Global, globals: &[(Name, Kind)]) -> Result<HashMap<&str, usize>, Memory>
    ensures { IfOk result (λ numbers. AreGlobals globals.now (λ q. get_by (λ k. bytes_eq q k.now) numbers)) }
{
    let mut numbers = HashMap::new(alloc);
    let mut number = globals.len();
    while number > 0 {
        number -= 1;
        numbers.insert(globals[number].0.as_str(), number)?;
    }
    Ok(numbers)
}

/// The numbers of classes by their names; of several with one name the first counts.
fn classes_of(alloc: Global, classes: &[CClass]) -> Result<HashMap<&str, usize>, Memory>
    ensures { IfOk result (λ numbers. AreClasses classes.now (λ q. get_by (λ k. bytes_eq q k.now) numbers)) }
{
    let mut numbers = HashMap::new(alloc);
    let mut number = classes.len();
    while number > 0 {
        number -= 1;
        numbers.insert(classes[number].name.as_str(), number)?;
    }
    Ok(numbers)
}

/// What the line at a place of a function names, where this is what the lines of each function name.
pub fn target_at(lines: &Many<Many<Target>>, func: usize, place: usize) -> Target
    ensures { (code : machine_code.Code) (g : CFunc) (l : Line) → lines.now ≡ lines_of code →
        slice_get code.funcs func ≡ Some g → slice_get g.lines place ≡ Some l →
        result ≡ target_of code (label_places g.lines) l }
{
    match lines.get(func) {
        None => nothing(),
        Some(targets) => match targets.get(place) {
            None => nothing(),
            Some(target) => *target,
        },
    }
}

/// A line that names nothing.
fn nothing() -> Target
    ensures { result ≡ record { first = None; second = None; callee = None; named = Nothing } }
{
    Target {
        first: None,
        second: None,
        callee: None,
        named: Named::Nothing,
    }
}

/// What the lines of one function name, where the functions, the globals and the classes have these numbers.
fn targets(
    alloc: Global,
    numbers: &HashMap<&str, usize>,
    globals: &HashMap<&str, usize>,
    classes: &HashMap<&str, usize>,
    lines: &[Line],
) -> Result<Many<Target>, Memory>
    ensures { IfOk result (λ targets. (code : machine_code.Code) → AreNumbers code.funcs (λ q. get_by (λ k. bytes_eq q k.now) numbers.now) →
        AreGlobals code.globals (λ q. get_by (λ k. bytes_eq q k.now) globals.now) →
        AreClasses code.classes (λ q. get_by (λ k. bytes_eq q k.now) classes.now) →
        targets ≡ targets_of code lines.now) }
{
    let labels = labels(alloc, lines)?;
    let mut targets = Many::new(alloc);
    for line in lines {
        targets.push(line_target(numbers, globals, classes, labels.as_slice(), line))?;
    }
    Ok(targets)
}

/// The places of the labels among lines.
fn labels(alloc: Global, lines: &[Line]) -> Result<Many<usize>, Memory>
    ensures { IfOk result (λ labels. labels ≡ label_places lines.now) }
{
    let mut labels = Many::new(alloc);
    for (place, line) in lines.iter().enumerate() {
        if let Line::Label = line {
            labels.push(place)?;
        }
    }
    Ok(labels)
}

/// What one line names, in a function with these places of labels.
fn line_target(
    numbers: &HashMap<&str, usize>,
    globals: &HashMap<&str, usize>,
    classes: &HashMap<&str, usize>,
    labels: &[usize],
    line: &Line,
) -> Target
    ensures { (code : machine_code.Code) → AreNumbers code.funcs (λ q. get_by (λ k. bytes_eq q k.now) numbers.now) →
        AreGlobals code.globals (λ q. get_by (λ k. bytes_eq q k.now) globals.now) →
        AreClasses code.classes (λ q. get_by (λ k. bytes_eq q k.now) classes.now) →
        result ≡ target_of code labels.now line.now }
{
    match line {
        Line::Goto(label) => Target {
            first: labels.get(*label).copied(),
            second: None,
            callee: None,
            named: Named::Nothing,
        },
        Line::If(_, label, other) => two_labels(labels, *label, *other),
        Line::IfError(_, label, other) => two_labels(labels, *label, *other),
        Line::Call(_, name, args) => Target {
            first: None,
            second: None,
            callee: callee_named(numbers, name.as_str()),
            named: first_named(globals, classes, args.as_slice()),
        },
        _ => nothing(),
    }
}

/// What the first argument of a call names.
fn first_named(
    globals: &HashMap<&str, usize>,
    classes: &HashMap<&str, usize>,
    args: &[CArg],
) -> Named
    ensures { (code : machine_code.Code) → AreGlobals code.globals (λ q. get_by (λ k. bytes_eq q k.now) globals.now) →
        AreClasses code.classes (λ q. get_by (λ k. bytes_eq q k.now) classes.now) →
        result ≡ named_of code args.now }
{
    match args.first() {
        Some(CArg::Global(name)) => named_global(global_number(globals, name.as_str())),
        Some(CArg::Class(name)) => named_class(class_number(classes, name.as_str())),
        _ => Named::Nothing,
    }
}

/// The global of a number, if there is one.
fn named_global(number: Option<usize>) -> Named
    ensures { result ≡ spec.named_global number }
{
    match number {
        None => Named::Nothing,
        Some(number) => Named::Global(number),
    }
}

/// The class of a number, if there is one.
fn named_class(number: Option<usize>) -> Named
    ensures { result ≡ spec.named_class number }
{
    match number {
        None => Named::Nothing,
        Some(number) => Named::Class(number),
    }
}

/// The number of the first global of a name.
fn global_number(globals: &HashMap<&str, usize>, name: &str) -> Option<usize>
    ensures { (code : machine_code.Code) → AreGlobals code.globals (λ q. get_by (λ k. bytes_eq q k.now) globals.now) →
        result ≡ number_of_global code name.now }
{
    globals.get(name).copied()
}

/// The number of the first class of a name.
fn class_number(classes: &HashMap<&str, usize>, name: &str) -> Option<usize>
    ensures { (code : machine_code.Code) → AreClasses code.classes (λ q. get_by (λ k. bytes_eq q k.now) classes.now) →
        result ≡ number_of_class code name.now }
{
    classes.get(name).copied()
}

/// The places of two labels, and nothing that is called.
fn two_labels(labels: &[usize], first: usize, second: usize) -> Target
    ensures { result ≡ record { first = slice_get labels.now first; second = slice_get labels.now second; callee = None; named = Nothing } }
{
    Target {
        first: labels.get(first).copied(),
        second: labels.get(second).copied(),
        callee: None,
        named: Named::Nothing,
    }
}

/// What is called by a name.
fn callee_named(numbers: &HashMap<&str, usize>, name: &str) -> Option<Callee>
    ensures { (functions : List CFunc) → AreNumbers functions (λ q. get_by (λ k. bytes_eq q k.now) numbers.now) →
        result ≡ callee_of functions name.now }
{
    match Prim::named(name) {
        Some(primitive) => Some(Callee::Primitive(primitive)),
        None => match function_named(numbers, name) {
            None => None,
            Some(number) => Some(Callee::Function(number)),
        },
    }
}

/// The number of the function that is called by a name.
fn function_named(numbers: &HashMap<&str, usize>, name: &str) -> Option<usize>
    ensures { (functions : List CFunc) → AreNumbers functions (λ q. get_by (λ k. bytes_eq q k.now) numbers.now) →
        result ≡ function_named functions name.now }
{
    match name.strip_prefix("CPyDef_") {
        None => None,
        Some(name) => number_of(numbers, name),
    }
}

/// The number of the first function of a name. The module's own function has none.
fn number_of(numbers: &HashMap<&str, usize>, name: &str) -> Option<usize>
    ensures { (functions : List CFunc) → AreNumbers functions (λ q. get_by (λ k. bytes_eq q k.now) numbers.now) →
        result ≡ number_of functions name.now }
{
    if name.is_empty() {
        None
    } else {
        numbers.get(name).copied()
    }
}

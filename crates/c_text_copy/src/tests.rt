use crate::copy::{CopyError, copy};
use outside_core::{CalmSource, MemSink};
use std::test::Fail;

/// The text of a module that prints 3.
const THREE: &[u8] =
    b"/* mypyc subset 1 */\nchar CPyModule(void) {\n    PyObject *cpy_t_0;\n    char cpy_t_1;\n    cpy_t_0 = CPyStr_Literal(\"3\\n\");\n    CPy_Write(cpy_t_0);\n    CPy_DECREF(cpy_t_0);\n    cpy_t_1 = 1;\n    return cpy_t_1;\n}\n";

/// What the output gets of a text, and of texts that are refused: one with a second spelling, and one that is not well
/// formed since it has no last `return`.
#[test]
fn a_text_is_copied(rt: HostRuntime) -> Result<(), Fail> {
    let alloc = rt.alloc();
    let spaced = b"/* mypyc subset 1 */\nchar CPyModule(void) { \n}\n";
    let endless = b"/* mypyc subset 1 */\nchar CPyModule(void) {\n}\n";
    let cases: &[(&[u8], Result<(), CopyError>, &[u8])] = &[
        (THREE, Ok(()), THREE),
        (spaced, Err(CopyError::TextRefused), b""),
        (endless, Err(CopyError::TextRefused), b""),
        (b"", Err(CopyError::TextRefused), b""),
    ];
    for (text, want, written) in cases {
        let mut input = CalmSource::new(Vec::from_slice(alloc, text)?);
        let mut out = MemSink::new(alloc, Vec::new(alloc));
        assert_eq!(rt; copy(alloc, &mut input, &mut out), *want);
        assert_eq!(rt; out.bytes(), *written);
    }
    Ok(())
}

// Headers that are read back: no command reads one.
use rt_cdecl::{CField, CFunction, CStruct, CType, read};
use rt_lines::Loc;
use rt_texts::TextFault;
use std::test::Fail;

// The header of a function that is passed an item of a list and gives one. An item begins with a pointer to the next.
const LIST: &str = "struct s0;\nstruct s0 {\n  struct s0 *m0;\n};\nstruct s0 *f0(struct s0 *a0);\n";

// Whether the type is that of a pointer to s0.
fn is_link(kind: &CType) -> bool {
    match kind {
        CType::Pointer(number) => *number == 0,
        _ => false,
    }
}

// Whether the fields are such a pointer alone, at offset 0.
fn are_links(fields: &[CField]) -> bool {
    match fields {
        [field] => field.offset == 0 && is_link(&field.kind),
        _ => false,
    }
}

// Whether the structs are s0 alone, which has these fields.
fn are_items(structs: &[CStruct]) -> bool {
    match structs {
        [item] => item.number == 0 && are_links(item.fields.items()),
        _ => false,
    }
}

// Whether the arguments are such a pointer alone, in a0.
fn are_heads(args: &[(Loc, CType)]) -> bool {
    match args {
        [(place, kind)] => *place == Loc::Arg(0) && is_link(kind),
        _ => false,
    }
}

// Whether the functions are f0 alone, which is passed such a pointer and gives one in a0.
fn are_walks(functions: &[CFunction]) -> bool {
    match functions {
        [walk] => {
            walk.number == 0
                && are_heads(walk.args.items())
                && is_link(&walk.out0)
                && matches!(&walk.out1, CType::Unused)
        }
        _ => false,
    }
}

#[test]
fn a_header_is_read_back(rt: HostRuntime) -> Result<(), Fail> {
    let decls = read(rt.alloc(), LIST.as_bytes());
    assert!(rt; decls.is_ok());
    if let Ok(decls) = decls {
        assert!(rt; decls.typedefs.items().is_empty());
        assert!(rt; are_items(decls.structs.items()));
        assert!(rt; are_walks(decls.functions.items()));
    }
    Ok(())
}

#[test]
fn bad_texts_are_refused(rt: HostRuntime) -> Result<(), Fail> {
    let texts = [
        // a line of no header, since numbers have no zero before them
        ("struct s0;\nstruct s00 {\n", 11),
        // a line that doesn't go on with those before it, since no struct of this number was named
        ("struct s0;\nstruct s1 {\n", 11),
        // a line after which not all types that are listed can be used: fields alone have 8 bits, and no struct is to come
        ("typedef unsigned char rt_int8_8;\nvoid f0(void);\n", 33),
        // a last line without its line end
        ("struct s0;\nstruct s0 {\n};", 23),
        // an end before the struct that was named
        ("struct s0;\n", 11),
    ];
    for (text, place) in texts {
        let fault = read(rt.alloc(), text.as_bytes()).err();
        assert!(rt; fault == Some(TextFault::BadText(place)), "{text}");
    }
    Ok(())
}

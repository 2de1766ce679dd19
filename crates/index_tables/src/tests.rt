use super::TableRefusal::*;
use super::*;
use bk_base::Text;
use std::alloc::Global;
use std::test::Fail;

#[derive(Clone, Copy)]
enum Kind {
    Imports,
    Exports,
    Locals,
    Funs,
}

fn refusal(alloc: Global, kind: Kind, payload: &[u8], atoms: &Atoms) -> Option<TableRefusal> {
    match kind {
        Kind::Imports => read_imports(alloc, payload, atoms).err(),
        Kind::Exports => read_exports(alloc, payload, atoms).err(),
        Kind::Locals => read_locals(alloc, payload, atoms).err(),
        Kind::Funs => read_funs(alloc, payload, atoms).err(),
    }
}

#[test]
fn tables_are_shown(rt: HostRuntime) -> Result<(), Fail> {
    let alloc = rt.alloc();
    let payload = b"\0\0\0\x05\x01m\x02go\x06erlang\x0bmodule_info\x0fget_module_info";
    let atoms = read_atoms(alloc, payload)?;
    let text = atoms_text(alloc, &atoms)?;
    let lines = b"1 m\n2 go\n3 erlang\n4 module_info\n5 get_module_info\n";
    assert_eq!(rt; text.as_slice(), lines.as_slice());

    let payload = b"\0\0\0\x02\0\0\0\x03\0\0\0\x05\0\0\0\x01\0\0\0\x03\0\0\0\x05\0\0\0\x02";
    let text = imports_text(alloc, &read_imports(alloc, payload, &atoms)?, &atoms)?;
    let lines = b"0 erlang:get_module_info/1\n1 erlang:get_module_info/2\n";
    assert_eq!(rt; text.as_slice(), lines.as_slice());

    let payload =
        b"\0\0\0\x03\0\0\0\x04\0\0\0\x01\0\0\0\x06\0\0\0\x04\0\0\0\0\0\0\0\x04\0\0\0\x02\0\0\0\x01\0\0\0\x02";
    let text = exports_text(alloc, &read_exports(alloc, payload, &atoms)?, &atoms)?;
    let lines = b"module_info/1 6\nmodule_info/0 4\ngo/1 2\n";
    assert_eq!(rt; text.as_slice(), lines.as_slice());

    let text = exports_text(alloc, &read_locals(alloc, b"\0\0\0\0", &atoms)?, &atoms)?;
    assert!(rt; text.is_empty());

    let payload = b"\0\0\0\x01\0\0\0\x02\0\0\0\x01\0\0\0\x02\0\0\0\0\0\0\0\0\0\0\0\0";
    let text = funs_text(alloc, &read_funs(alloc, payload, &atoms)?, &atoms)?;
    let lines = b"0 go/1 label 2 index 0 free 0 unique 0\n";
    assert_eq!(rt; text.as_slice(), lines.as_slice());
    Ok(())
}

#[test]
fn bad_atoms_are_refused(rt: HostRuntime) {
    let cases: [(&[u8], TableRefusal); 9] = [
        (b"", Cut),
        (b"\0\0\0", Cut),
        (b"\xff\xff\xff\xff", Cut),
        (b"\0\0\0\x01", Cut),
        (b"\0\0\0\x01\x02m", Cut),
        (b"\0\0\0\x02\x01m\x01\xff", AtomUtf8 { n: 2 }),
        (b"\0\0\0\x02\x01\xff", AtomUtf8 { n: 1 }),
        (b"\0\0\0\x01\x01m\0", Rest),
        (b"\0\0\0\0\0", Rest),
    ];
    for (payload, refusal) in cases {
        assert_eq!(rt;
            read_atoms(rt.alloc(), payload).err(),
            Some(refusal),
            "{payload:?}"
        );
    }
}

#[test]
fn bad_entries_are_refused(rt: HostRuntime) -> Result<(), Fail> {
    let mut atoms = Atoms::new(rt.alloc());
    atoms.push(Text::from_bytes(rt.alloc(), b"m")?)?;
    atoms.push(Text::from_bytes(rt.alloc(), b"go")?)?;
    let cases: [(Kind, &[u8], TableRefusal); 16] = [
        (Kind::Imports, b"\xff\xff\xff\xff", Cut),
        (Kind::Imports, b"\0\0\0\x01\0\0\0\0\0\0\0\x01\0\0\0", Cut),
        (
            Kind::Imports,
            b"\0\0\0\x01\0\0\0\0\0\0\0\x01\0\0\0\0",
            AtomIndex { entry: 0 },
        ),
        (
            Kind::Imports,
            b"\0\0\0\x02\0\0\0\x01\0\0\0\x02\0\0\0\0\0\0\0\x01\0\0\0\x03\0\0\0\0",
            AtomIndex { entry: 1 },
        ),
        (
            Kind::Imports,
            b"\0\0\0\x01\0\0\0\x01\0\0\0\x02\0\0\0\0\0",
            Rest,
        ),
        (Kind::Exports, b"\0\0\0\x01\0\0\0\0\0\0\0\0\0\0\0", Cut),
        (
            Kind::Exports,
            b"\0\0\0\x01\0\0\0\0\0\0\0\0\0\0\0\0",
            AtomIndex { entry: 0 },
        ),
        (
            Kind::Exports,
            b"\0\0\0\x01\0\0\0\x03\0\0\0\0\0\0\0\0",
            AtomIndex { entry: 0 },
        ),
        (Kind::Exports, b"\0\0\0\0\0", Rest),
        (Kind::Locals, b"\0\0\0", Cut),
        (
            Kind::Locals,
            b"\0\0\0\x01\0\0\0\x03\0\0\0\0\0\0\0\0",
            AtomIndex { entry: 0 },
        ),
        (Kind::Locals, b"\0\0\0\0\0", Rest),
        (
            Kind::Funs,
            b"\0\0\0\x01\0\0\0\0\0\0\0\0\0\0\0\0\0\0\0\0\0\0\0\0\0\0\0",
            Cut,
        ),
        (
            Kind::Funs,
            b"\0\0\0\x01\0\0\0\0\0\0\0\0\0\0\0\0\0\0\0\0\0\0\0\0\0\0\0\0",
            AtomIndex { entry: 0 },
        ),
        (
            Kind::Funs,
            b"\0\0\0\x01\0\0\0\x03\0\0\0\0\0\0\0\0\0\0\0\0\0\0\0\0\0\0\0\0",
            AtomIndex { entry: 0 },
        ),
        (Kind::Funs, b"\0\0\0\0\0", Rest),
    ];
    for (kind, payload, why) in cases {
        assert_eq!(rt;
            refusal(rt.alloc(), kind, payload, &atoms),
            Some(why),
            "{payload:?}"
        );
    }
    Ok(())
}

#[test]
fn atoms_are_found_by_number(rt: HostRuntime) -> Result<(), Fail> {
    let mut atoms = Atoms::new(rt.alloc());
    assert!(rt; atom_name(&atoms, 1).is_none());
    atoms.push(Text::from_bytes(rt.alloc(), b"m")?)?;
    assert_eq!(rt; atom_name(&atoms, 1).ok_or("no atom")?.as_str(), "m");
    assert!(rt; atom_name(&atoms, 0).is_none() && atom_name(&atoms, 2).is_none());
    Ok(())
}

#[test]
fn tables_are_written_back(rt: HostRuntime) -> Result<(), Fail> {
    let alloc = rt.alloc();
    let payload = b"\0\0\0\x05\x01m\x02go\x06erlang\x0bmodule_info\x0fget_module_info";
    let atoms = read_atoms(alloc, payload)?;
    assert_eq!(rt; write_atoms(alloc, &atoms)?.as_slice(), payload.as_slice());
    let none = read_atoms(alloc, b"\0\0\0\0")?;
    assert_eq!(rt;
        write_atoms(alloc, &none)?.as_slice(),
        b"\0\0\0\0".as_slice()
    );
    let two_bytes = b"\0\0\0\x01\x02\xc3\xa9";
    let atom = read_atoms(alloc, two_bytes)?;
    assert_eq!(rt; write_atoms(alloc, &atom)?.as_slice(), two_bytes.as_slice());

    let payload = b"\0\0\0\x02\0\0\0\x03\0\0\0\x05\0\0\0\x01\0\0\0\x03\0\0\0\x05\0\0\0\x02";
    let imports = read_imports(alloc, payload, &atoms)?;
    assert_eq!(rt;
        write_imports(alloc, &imports)?.as_slice(),
        payload.as_slice()
    );

    let payload = b"\0\0\0\x01\0\0\0\x04\x01\x02\x03\x04\xff\xff\xff\xff";
    let exports = read_exports(alloc, payload, &atoms)?;
    assert_eq!(rt;
        write_exports(alloc, &exports)?.as_slice(),
        payload.as_slice()
    );

    let payload = b"\0\0\0\x01\0\0\0\x02\0\0\0\x01\0\0\0\x02\0\0\0\0\0\0\0\0\0\0\0\0";
    let funs = read_funs(alloc, payload, &atoms)?;
    assert_eq!(rt; write_funs(alloc, &funs)?.as_slice(), payload.as_slice());
    Ok(())
}

//! The rule over rows of owners and modes, and the walk over folders of the test's own below the
//! temporary one. They make folders and files, and remove them. Begin with `ROWS`.

use crate::fault::HomeFault;
use crate::rule::{Part, Step, Users, judge};
use crate::socket_path::{home_socket, socket_paths};
use crate::walk::{OwnFile, check_home, check_program, own_file, real_path};
use std::alloc::Global;
use std::fs::{DirBuilder, Permissions};
use std::os::unix::fs::{DirBuilderExt, MetadataExt, PermissionsExt, chown, symlink};
use std::os::unix::net::UnixListener;
use std::test::Fail;
use std::{env, fs, process};

const USER: u32 = 1000;

const OTHER: u32 = 1001;

/// By this number a user namespace shows each owner who isn't mapped.
const NOBODY: u32 = 65_534;

/// What is judged, whether in a user namespace, the owner and mode of each step from it up to the
/// root, and what comes of it: the step that fails, and by which rule.
type Row = (Part, bool, &'static [(u32, u32)], &'static str);

const ROWS: [Row; 28] = [
    (
        Part::Home,
        false,
        &[(USER, 0o40700), (0, 0o40755), (0, 0o40755)],
        "passes",
    ),
    (
        Part::Home,
        false,
        &[(USER, 0o750), (USER, 0o755), (0, 0o755)],
        "passes",
    ),
    (
        Part::Home,
        false,
        &[(USER, 0o2755), (0, 0o1777), (0, 0o755)],
        "passes",
    ),
    (
        Part::Home,
        false,
        &[(USER, 0o700), (0, 0o755), (0, 0o1777), (0, 0o1775)],
        "passes",
    ),
    (
        Part::Home,
        false,
        &[(USER, 0o700), (USER, 0o1777), (0, 0o755)],
        "passes",
    ),
    (Part::Home, false, &[(USER, 0o770), (0, 0o755)], "0 Mode"),
    (Part::Home, false, &[(USER, 0o720), (0, 0o755)], "0 Mode"),
    (Part::Home, false, &[(USER, 0o702), (0, 0o755)], "0 Mode"),
    (Part::Home, false, &[(USER, 0o1777), (0, 0o755)], "0 Mode"),
    (Part::Home, false, &[(OTHER, 0o700), (0, 0o755)], "0 Owner"),
    (Part::Home, false, &[(0, 0o700), (0, 0o755)], "0 Owner"),
    (
        Part::Home,
        false,
        &[(OTHER, 0o777), (OTHER, 0o777)],
        "0 Owner",
    ),
    (
        Part::Home,
        false,
        &[(USER, 0o700), (0, 0o777), (0, 0o755)],
        "1 Mode",
    ),
    (
        Part::Home,
        false,
        &[(USER, 0o700), (USER, 0o775), (0, 0o777)],
        "1 Mode",
    ),
    (
        Part::Home,
        false,
        &[(USER, 0o700), (OTHER, 0o755), (0, 0o755)],
        "1 Owner",
    ),
    (
        Part::Home,
        false,
        &[(USER, 0o700), (OTHER, 0o1777), (0, 0o755)],
        "1 Owner",
    ),
    (
        Part::Home,
        false,
        &[(USER, 0o700), (0, 0o755), (0, 0o757)],
        "2 Mode",
    ),
    (
        Part::Home,
        false,
        &[(USER, 0o700), (NOBODY, 0o755), (0, 0o755)],
        "1 Owner",
    ),
    (
        Part::Home,
        true,
        &[(USER, 0o700), (NOBODY, 0o1777), (NOBODY, 0o755)],
        "passes",
    ),
    (
        Part::Home,
        true,
        &[(USER, 0o700), (NOBODY, 0o777), (NOBODY, 0o755)],
        "1 Mode",
    ),
    (Part::Home, true, &[(NOBODY, 0o700), (0, 0o755)], "0 Owner"),
    (Part::Above, false, &[(0, 0o1777), (0, 0o755)], "passes"),
    (Part::Above, false, &[(OTHER, 0o755), (0, 0o755)], "0 Owner"),
    (Part::Program, false, &[(0, 0o755), (0, 0o755)], "passes"),
    (
        Part::Program,
        true,
        &[(NOBODY, 0o755), (NOBODY, 0o755)],
        "passes",
    ),
    (
        Part::Program,
        false,
        &[(USER, 0o700), (0, 0o1777)],
        "passes",
    ),
    (
        Part::Program,
        false,
        &[(OTHER, 0o755), (0, 0o755)],
        "0 Owner",
    ),
    (Part::Program, false, &[(0, 0o1775), (0, 0o755)], "0 Mode"),
];

/// What the rule says of a row.
fn judged(
    alloc: Global,
    part: Part,
    is_in_namespace: bool,
    owners: &[(u32, u32)],
) -> Result<String, Fail> {
    let mut steps = Vec::new(alloc);
    for (owner, mode) in owners {
        steps.push(Step {
            owner: *owner,
            mode: *mode,
        })?;
    }
    let users = Users {
        user: USER,
        unmapped: is_in_namespace.then_some(NOBODY),
    };
    Ok(match judge(users, part, steps.as_slice()) {
        Ok(()) => String::from_str(alloc, "passes")?,
        Err(breach) => format!(in alloc; "{} {:?}", breach.place, breach.rule)?,
    })
}

/// The first row of which something else is said.
fn first_wrong(alloc: Global) -> Result<Option<usize>, Fail> {
    for (place, (part, is_in_namespace, steps, wanted)) in ROWS.into_iter().enumerate() {
        let found = judged(alloc, part, is_in_namespace, steps)?;
        if found.as_str() != wanted {
            return Ok(Some(place));
        }
    }
    Ok(None)
}

#[test]
fn each_step_has_its_owner_and_mode(rt: HostRuntime) -> Result<(), Fail> {
    assert_eq!(rt; first_wrong(rt.alloc())?, None);
    Ok(())
}

/// A path of this test's own, below the folder for what is temporary.
fn own_path(rt: &HostRuntime, name: &str) -> Result<String, Fail> {
    let temporary = env::temp_dir(rt)?;
    let number = process::id(rt.process());
    let temporary = temporary.as_path().to_str().ok_or("no text")?;
    Ok(format!(in rt.alloc(); "{temporary}/{name}{number}")?)
}

/// What is said of it.
fn told(alloc: Global, checked: Result<(), HomeFault>) -> Result<String, Fail> {
    Ok(match checked {
        Ok(()) => String::from_str(alloc, "passes")?,
        Err(fault) => format!(in alloc; "{fault}")?,
    })
}

/// What is said of a socket's place.
fn told_of(alloc: Global, found: Result<Option<OwnFile>, HomeFault>) -> Result<String, Fail> {
    Ok(match found {
        Ok(Some(found)) if found.is_socket => String::from_str(alloc, "a socket")?,
        Ok(Some(_)) => String::from_str(alloc, "a file")?,
        Ok(None) => String::from_str(alloc, "nothing")?,
        Err(fault) => format!(in alloc; "{fault}")?,
    })
}

#[test]
fn a_folder_is_judged_with_those_above(rt: HostRuntime) -> Result<(), Fail> {
    let above = own_path(&rt, "gh_one")?;
    let home = format!(in rt.alloc(); "{above}/home")?;
    let linked = own_path(&rt, "gh_two")?;
    DirBuilder::new().mode(0o700).create(&rt, &above)?;
    symlink(&rt, &home, &linked)?;
    let is_root = fs::metadata(&rt, &above)?.uid() == 0;
    // The modes of the folder above and of the folder, which isn't there at first, its owner where
    // root may give it away, and which folder is named, behind it how.
    for (up, mode, owner, wanted) in [
        (0o700, None, None, "passes"),
        (
            0o777,
            None,
            None,
            "others may write in the folder UP (mode 0777): chmod go-w UP",
        ),
        (0o1777, None, None, "passes"),
        (0o755, Some(0o750), None, "passes"),
        (0o1777, Some(0o700), None, "passes"),
        (
            0o755,
            Some(0o770),
            None,
            "others may write in the folder UP/home (mode 0770): chmod go-w UP/home",
        ),
        (
            0o775,
            Some(0o700),
            None,
            "others may write in the folder UP (mode 0775): chmod go-w UP",
        ),
        (
            0o755,
            Some(0o700),
            Some(NOBODY),
            "the folder UP/home belongs to user 65534, and not to user 0: take a folder of your own",
        ),
    ] {
        fs::set_permissions(&rt, &above, Permissions::from_mode(up))?;
        if let Some(mode) = mode {
            let _ = DirBuilder::new().mode(0o700).create(&rt, &home);
            fs::set_permissions(&rt, &home, Permissions::from_mode(mode))?;
        }
        if owner.is_some() && !is_root {
            continue;
        }
        chown(&rt, &home, owner, None).ok();
        let wanted = wanted.replace(rt.alloc(), "UP", above.as_str())?;
        // A link that leads nowhere is a name that isn't there.
        let last = if mode.is_some() { &linked } else { &home };
        for path in [&home, last] {
            let found = told(rt.alloc(), check_home(&rt, rt.alloc(), path))?;
            assert_eq!(rt; found.as_str(), wanted.as_str());
        }
    }
    fs::remove_file(&rt, &linked)?;
    fs::remove_dir_all(&rt, &above)?;
    Ok(())
}

#[test]
fn what_is_in_a_sockets_place_is_the_users_own(rt: HostRuntime) -> Result<(), Fail> {
    let folder = own_path(&rt, "gh_three")?;
    DirBuilder::new().mode(0o700).create(&rt, &folder)?;
    let is_root = fs::metadata(&rt, &folder)?.uid() == 0;
    let path = home_socket(rt.alloc(), folder.as_str())?;
    let paths = socket_paths(&rt, rt.alloc(), folder.as_str())?;
    assert_eq!(rt;
        paths.as_slice().last().map(String::as_str),
        Some(path.as_str())
    );
    let linked = format!(in rt.alloc(); "{folder}/linked")?;
    let program = format!(in rt.alloc(); "{folder}/program")?;
    symlink(&rt, &path, &linked)?;
    assert_eq!(rt;
        told_of(rt.alloc(), own_file(&rt, rt.alloc(), &linked))?.as_str(),
        "nothing"
    );
    let listener = UnixListener::bind(&rt, &path)?;
    fs::write(&rt, &program, b"#!/bin/sh\n")?;
    let real = real_path(&rt, rt.alloc(), &program)?.ok_or("no path")?;
    // The folder's mode, whose the socket is, the program's mode, and what is said of both.
    for (mode, owner, changes, socket, run) in [
        (0o700, None, 0o755, "a socket", "passes"),
        (
            0o755,
            None,
            0o775,
            "a socket",
            "others may change the program AT/program (mode 0775): chmod go-w AT/program",
        ),
        (
            0o707,
            None,
            0o755,
            "others may write in the folder AT (mode 0707): chmod go-w AT",
            "others may write in the folder AT (mode 0707): chmod go-w AT",
        ),
        (
            0o700,
            Some(NOBODY),
            0o755,
            "the socket AT/S.gpg-agent belongs to user 65534, and not to user 0: remove it",
            "passes",
        ),
    ] {
        if owner.is_some() && !is_root {
            continue;
        }
        fs::set_permissions(&rt, &folder, Permissions::from_mode(mode))?;
        fs::set_permissions(&rt, &program, Permissions::from_mode(changes))?;
        chown(&rt, &path, owner, None)?;
        let wanted = socket.replace(rt.alloc(), "AT", folder.as_str())?;
        let found = told_of(rt.alloc(), own_file(&rt, rt.alloc(), &linked))?;
        assert_eq!(rt; found.as_str(), wanted.as_str());
        let wanted = run.replace(rt.alloc(), "AT", folder.as_str())?;
        let found = told(rt.alloc(), check_program(&rt, rt.alloc(), &real))?;
        assert_eq!(rt; found.as_str(), wanted.as_str());
    }
    drop(listener);
    fs::remove_dir_all(&rt, &folder)?;
    Ok(())
}

use mt_mime::{boundary_of, read_changes};
use std::alloc::Global;
use std::test::Fail;

#[test]
fn boundaries_of_media_types(rt: HostRuntime) -> Result<(), Fail> {
    for (value, want) in [
        ("multipart/mixed; boundary=batch_1", "batch_1"),
        ("Multipart/Mixed ;\tBOUNDARY=\"a b\" ; charset=x", "a b"),
        ("multipart/mixed;a=b;boundary=1;boundary=2", "1"),
        ("multipart/mixed; boundary = 2", "2"),
        ("multipart/mixed; boundary=\"a;b\"", "a;b"),
        ("multipart/mixed; x=\";boundary=1;\"; boundary=2", "2"),
        ("multipart/mixed; boundary", ""),
        ("multipart/mixed; boundary=", ""),
        ("multipart/mixed; boundary=\"\"", ""),
        ("multipart/mixed; boundary=;boundary=2", ""),
        ("multipart/mixed; boundary=\"a", ""),
        ("multipart/mixed; boundary=\"a\"b", ""),
        ("multipart/mixed", ""),
        ("multipart/mixe; boundary=b", ""),
        ("text/plain; boundary=b", ""),
        ("", ""),
    ] {
        let got = boundary_of(value.as_bytes()).unwrap_or(b"");
        assert!(rt; got == want.as_bytes(), "{value}");
    }
    Ok(())
}

/// How many operations the body of that boundary has, and how many bytes their bodies.
fn count(alloc: Global, boundary: &[u8], body: &[u8]) -> Option<(usize, usize)> {
    let Ok(parts) = read_changes(alloc, boundary, body) else {
        return None;
    };
    let mut size: usize = 0;
    for part in &parts {
        size = size.saturating_add(part.body.as_slice().len());
    }
    Some((parts.len(), size))
}

/// The same of a change set with the boundary `b` in a body with the boundary `a`.
fn count_inside(alloc: Global, inner: &str) -> Result<Option<(usize, usize)>, Fail> {
    let body = format!(in alloc;
        "--a\r\nContent-Type: multipart/mixed; boundary=b\r\n\r\n{inner}\r\n--a--"
    )?;
    Ok(count(alloc, b"a", body.as_bytes()))
}

#[test]
fn change_sets_are_read(rt: HostRuntime) -> Result<(), Fail> {
    let alloc = rt.alloc();
    for (inner, want) in [
        ("--b--", (0, 0)),
        ("--b\n--bb\r\n --b\r\n--b--", (0, 0)),
        (
            "--b\r\nContent-Type: application/http\r\n\r\nGET /x HTTP/1.1\r\n\r\n\r\n--b--",
            (1, 0),
        ),
        (
            "first\r\n--b\r\nContent-Type: application/http\r\n\r\nPOST /x HTTP/1.0\r\nA: b\r\n\r\n{\n}\r\n--b \t\r\ncontent-type: Application/HTTP; msgtype=request\r\n\r\nGET /x HTTP/1.1\r\n\r\n\r\n--b-- \r\nlast",
            (2, 3),
        ),
        (
            "--b\r\nContent-Type: application/http\r\n\r\nPUT /x HTTP/1.1\r\n\r\n--bc\r\n--b-\r\nx--b\r\n--b--",
            (1, 16),
        ),
    ] {
        let got = count_inside(alloc, inner)?;
        assert!(rt; got == Some(want), "{inner} {got:?}");
    }
    Ok(())
}

#[test]
fn bodies_that_spell_no_change_set(rt: HostRuntime) -> Result<(), Fail> {
    let alloc = rt.alloc();
    for inner in [
        // one line end cannot end the head and stand before the delimiter
        "--b\r\nContent-Type: application/http\r\n\r\nGET /x HTTP/1.1\r\n\r\n--b--",
        // bare line feeds
        "--b\r\nContent-Type: application/http\r\n\r\nGET /x HTTP/1.1\n\r\n\r\n--b--",
        "--b\r\nContent-Type: application/http\n\r\nGET /x HTTP/1.1\r\n\r\n\r\n--b--",
        // an empty line before the head
        "--b\r\nContent-Type: application/http\r\n\r\n\r\nGET /x HTTP/1.1\r\n\r\n\r\n--b--",
        // no type, and another
        "--b\r\n\r\nGET /x HTTP/1.1\r\n\r\n\r\n--b--",
        "--b\r\nContent-Type: text/plain\r\n\r\nGET /x HTTP/1.1\r\n\r\n\r\n--b--",
        // no head
        "--b\r\nContent-Type: application/http\r\n\r\n\r\n--b--",
        "--b\r\n--b--",
        // no delimiter, and no end
        "",
        "--b\r\nContent-Type: application/http\r\n\r\nGET /x HTTP/1.1\r\n\r\n",
        "--b\r\nContent-Type: application/http\r\n\r\nGET /x HTTP/1.1\r\n\r\n\r\n--b",
    ] {
        let got = count_inside(alloc, inner)?;
        assert!(rt; got == None, "{inner} {got:?}");
    }
    Ok(())
}

#[test]
fn outer_bodies(rt: HostRuntime) -> Result<(), Fail> {
    let alloc = rt.alloc();
    for (body, want) in [
        (
            "--a\r\nContent-Type: multipart/mixed; boundary=\"b;c\"\r\n\r\n--b;c--\r\n--a--\r\n",
            true,
        ),
        (
            "x\r\n--a\r\nContent-Type: multipart/mixed; boundary=b\r\n\r\n--b--\r\n--a--\r\n--a\r\n",
            true,
        ),
        (
            "--a\r\nContent-Type: multipart/mixed\r\n\r\n--b--\r\n--a--",
            false,
        ),
        (
            "--a\r\nContent-Type: multipart/other; boundary=b\r\n\r\n--b--\r\n--a--",
            false,
        ),
        ("--a\r\n\r\n--b--\r\n--a--", false),
        ("--a--", false),
        ("--b--", false),
        (
            "--a\r\nContent-Type: multipart/mixed; boundary=b\r\n\r\n--b--\r\n--a\r\nContent-Type: multipart/mixed; boundary=b\r\n\r\n--b--\r\n--a--",
            false,
        ),
    ] {
        let got = count(alloc, b"a", body.as_bytes());
        assert!(rt; got.is_some() == want, "{body} {got:?}");
    }
    Ok(())
}

#[test]
fn parts_of_an_operation(rt: HostRuntime) -> Result<(), Fail> {
    let alloc = rt.alloc();
    let body =
        "--a\r\nContent-Type: multipart/mixed; boundary=b\r\n\r\n--b\r\nContent-Type: application/http\r\n\r\nMERGE /T HTTP/1.1\r\nIf-Match: *\r\n\r\n{}\r\n--b--\r\n--a--\r\n";
    match read_changes(alloc, b"a", body.as_bytes()) {
        Ok(parts) => match parts.as_slice() {
            [part] => {
                assert!(rt; part.method.as_str() == "MERGE");
                assert!(rt; part.target.as_str() == "/T");
                assert!(rt; part.body.as_slice() == b"{}".as_slice());
                let value = mt_http_in::first_value(part.fields.as_slice(), b"if-match");
                assert!(rt; value.unwrap_or(b"") == b"*".as_slice());
                assert!(rt; part.fields.as_slice().len() == 1);
            }
            _ => assert!(rt; false),
        },
        Err(_) => assert!(rt; false),
    }
    Ok(())
}

/// The piece so many times, in a change set.
fn repeated(
    alloc: Global,
    front: &[u8],
    piece: &[u8],
    times: usize,
    end: &[u8],
) -> Result<Vec<u8>, Fail> {
    let mut bytes = Vec::from_slice(
        alloc,
        b"--a\r\nContent-Type: multipart/mixed; boundary=b\r\n\r\n",
    )?;
    bytes.extend_from_slice(front)?;
    for _ in 0..times {
        bytes.extend_from_slice(piece)?;
    }
    bytes.extend_from_slice(end)?;
    Ok(bytes)
}

const FIRST: &[u8] = b"--b\r\nContent-Type: application/http\r\n\r\nPUT /x HTTP/1.1\r\n\r\n";

#[test]
fn a_hundred_operations(rt: HostRuntime) -> Result<(), Fail> {
    let alloc = rt.alloc();
    let one =
        b"--b\r\nContent-Type: application/http\r\n\r\nPOST /T HTTP/1.1\r\n\r\n{\"RowKey\":\"r\"}\r\n";
    let body = repeated(alloc, b"", one, 100, b"--b--\r\n--a--\r\n")?;
    assert!(rt; count(alloc, b"a", &body) == Some((100, 1400)));
    Ok(())
}

#[test]
fn hostile_bodies_are_read_soon(rt: HostRuntime) -> Result<(), Fail> {
    let alloc = rt.alloc();
    let empty = repeated(alloc, b"", b"--b\r\n", 100_000, b"--b--\r\n--a--")?;
    assert!(rt; count(alloc, b"a", &empty) == None);
    let open = repeated(alloc, FIRST, b"--bb\r\n", 100_000, b"")?;
    assert!(rt; count(alloc, b"a", &open) == None);
    let near = repeated(alloc, FIRST, b"--bb\r\n", 100_000, b"\r\n--b--\r\n--a--")?;
    assert!(rt; count(alloc, b"a", &near) == Some((1, 600_000)));
    let feeds = repeated(alloc, FIRST, b"\n\n\n\n\n", 100_000, b"\r\n--b--\r\n--a--")?;
    assert!(rt; count(alloc, b"a", &feeds) == Some((1, 500_000)));
    let returns = repeated(alloc, FIRST, b"\r\r\r\r\r", 100_000, b"\r\n--b--\r\n--a--")?;
    assert!(rt; count(alloc, b"a", &returns) == Some((1, 500_000)));
    Ok(())
}

/// So many dashes.
fn dashes(alloc: Global, tens: usize) -> Result<Vec<u8>, Fail> {
    let mut bytes = Vec::new(alloc);
    for _ in 0..tens {
        bytes.extend_from_slice(b"----------")?;
    }
    Ok(bytes)
}

#[test]
fn long_boundaries_are_compared_soon(rt: HostRuntime) -> Result<(), Fail> {
    let alloc = rt.alloc();
    let boundary = dashes(alloc, 6_000)?;
    let long = dashes(alloc, 100_000)?;
    assert!(rt; count(alloc, &boundary, &long) == None);
    let lines = repeated(alloc, b"", b"--------\r\n", 100_000, b"")?;
    assert!(rt; count(alloc, &boundary, &lines) == None);
    Ok(())
}

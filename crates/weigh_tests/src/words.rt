// Each flag by its name, since the parser answers a name that it doesn't know as one that was not given.
use cmdline::{Asked, asked_by};
use std::alloc::Global;
use std::process::Abort;
use std::test::Fail;

fn runs(
    heap: Global,
    words: &[&str],
    file: Option<&str>,
    strict: bool,
    explain: bool,
) -> Result<bool, Fail> {
    Ok(match asked_by(heap, words)? {
        Asked::Run(run) => run.file == file && run.strict == strict && run.explain == explain,
        _ => false,
    })
}

fn tells(heap: Global, words: &[&str], part: &str) -> Result<bool, Fail> {
    Ok(match asked_by(heap, words)? {
        Asked::Tell(text) => text.as_str().contains(part),
        _ => false,
    })
}

fn is_wrong(heap: Global, words: &[&str], part: &str) -> Result<bool, Fail> {
    Ok(match asked_by(heap, words)? {
        Asked::Wrong(text) => text.as_str().contains(part),
        _ => false,
    })
}

#[test]
fn files(rt: HostRuntime) -> Result<(), Fail> {
    assert!(rt; runs(rt.alloc(), &["weigh"], None, false, false)?);
    assert!(rt; runs(rt.alloc(), &["weigh", "-"], None, false, false)?);
    assert!(rt;
        runs(
            rt.alloc(),
            &["weigh", "day.txt"],
            Some("day.txt"),
            false,
            false
        )?
    );
    assert!(rt;
        runs(
            rt.alloc(),
            &["weigh", "--", "--strict"],
            Some("--strict"),
            false,
            false
        )?
    );
    assert!(rt; is_wrong(rt.alloc(), &["weigh", "a", "b"], "b")?);
    Ok(())
}

#[test]
fn flags(rt: HostRuntime) -> Result<(), Fail> {
    assert!(rt;
        runs(
            rt.alloc(),
            &["weigh", "--strict", "a"],
            Some("a"),
            true,
            false
        )?
    );
    assert!(rt;
        runs(
            rt.alloc(),
            &["weigh", "a", "--explain"],
            Some("a"),
            false,
            true
        )?
    );
    assert!(rt;
        runs(
            rt.alloc(),
            &["weigh", "--explain", "--strict", "-"],
            None,
            true,
            true
        )?
    );
    assert!(rt; is_wrong(rt.alloc(), &["weigh", "--strickt"], "--strict")?);
    assert!(rt; is_wrong(rt.alloc(), &["weigh", "--strict=yes"], "--strict")?);
    Ok(())
}

#[test]
fn told(rt: HostRuntime) -> Result<(), Fail> {
    assert!(rt; tells(rt.alloc(), &["weigh", "--help"], "rule T A P O")?);
    assert!(rt; tells(rt.alloc(), &["weigh", "-h"], "--explain")?);
    assert!(rt;
        tells(
            rt.alloc(),
            &["weigh", "--version"],
            "rattle-kit-13f logic dac8208d650f15bf"
        )?
    );
    Ok(())
}

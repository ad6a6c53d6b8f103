//! Sentences as they stand on standard error, and help.

use fault_words::{fault_of, help_for, message_for, note_for, usage_of};
use std::test::Fail;

#[test]
fn a_fault_comes_with_its_place_and_its_remedy(rt: HostRuntime) -> Result<(), Fail> {
    let words = words_of(&rt, &["ask", "--workers", "2", "app", "main"])?;
    let message = message_for(1, b"refused 4 1c\n", &words).ok_or("no message")?;
    let text = format!(in rt.alloc(); "gdbix: {message}")?;
    assert_eq!(rt;
        text.as_str(),
        "gdbix: app: a debug section is compressed (section [28]); run objcopy --decompress-debug-sections first"
    );
    assert_eq!(rt; message.section(), Some(28));
    let message = message.with_section(".debug_info");
    let text = format!(in rt.alloc(); "{message}")?;
    assert!(rt;
        text.as_str().starts_with("app: a debug section is compressed (section [28] .debug_info); ")
    );
    Ok(())
}

#[test]
fn a_line_of_a_session_has_a_fault_too(rt: HostRuntime) -> Result<(), Fail> {
    let words = words_of(&rt, &["serve", "app"])?;
    let message = message_for(1, b"4 refused 19 c\n", &words).ok_or("no message")?;
    let text = format!(in rt.alloc(); "{message}")?;
    assert!(rt;
        text.as_str()
            .starts_with("app: an entry's code has no abbreviation (entry <c>); ")
    );
    let unknown = message_for(1, b"- bad query\n", &words).ok_or("no message")?;
    let text = format!(in rt.alloc(); "{unknown}")?;
    assert_eq!(rt;
        text.as_str(),
        "app: the debug information is refused; gdbix ask FILE main says why"
    );
    Ok(())
}

#[test]
fn two_files_may_be_the_one_that_cant_be_read(rt: HostRuntime) -> Result<(), Fail> {
    let words = words_of(
        &rt,
        &["look", "names", "--base", "5", "x", "y", "name", "m"],
    )?;
    let message = message_for(3, b"read fault\n", &words).ok_or("no message")?;
    let text = format!(in rt.alloc(); "{message}")?;
    assert!(rt; text.as_str().starts_with("x or y: can't be read; "));
    Ok(())
}

#[test]
fn the_word_that_is_wrong_is_named(rt: HostRuntime) -> Result<(), Fail> {
    let words = words_of(&rt, &["foo"])?;
    let message = message_for(2, b"usage\n", &words).ok_or("no message")?;
    let text = format!(in rt.alloc(); "gdbix: {message}")?;
    assert_eq!(rt;
        text.as_str(),
        "gdbix: usage: unknown command 'foo'; try 'gdbix --help'"
    );
    let words = words_of(&rt, &["ask", "--workers", "065", "app", "main"])?;
    let usage = usage_of(&words);
    let text = format!(in rt.alloc(); "{usage}")?;
    assert_eq!(rt;
        text.as_str(),
        "--workers is a number from 1 to 64, not '065'"
    );
    let words = words_of(&rt, &["ask", "app", "addr", "0x10"])?;
    let message = message_for(2, b"usage\n", &words).ok_or("no message")?;
    let text = format!(in rt.alloc(); "{message}")?;
    assert_eq!(rt;
        text.as_str(),
        "usage: an address is 1 to 16 hexadecimal digits without 0x, not '0x10'; try 'gdbix ask --help'"
    );
    let words = words_of(
        &rt,
        &["index", "--as", "names", "--rules", "gdb", "app", "out"],
    )?;
    let usage = usage_of(&words);
    let text = format!(in rt.alloc(); "{usage}")?;
    assert_eq!(rt;
        text.as_str(),
        "with --rules gdb, --as is gdb8 or gdb9, not 'names'"
    );
    Ok(())
}

#[test]
fn a_kept_index_of_another_program_is_said(rt: HostRuntime) -> Result<(), Fail> {
    let words = words_of(&rt, &["cached", "app", "idx/", "main"])?;
    let note = note_for(b"stale 81 0\n", &words).ok_or("no note")?;
    let text = format!(in rt.alloc(); "{note}")?;
    assert!(rt;
        text.as_str()
            .starts_with("app: the index that is kept has another build-id")
    );
    assert!(rt; note_for(b"hit\n", &words).is_none());
    Ok(())
}

#[test]
fn each_code_has_its_row_and_help_its_text(rt: HostRuntime) -> Result<(), Fail> {
    let row = fault_of(24).ok_or("no row")?;
    assert_eq!(rt; row.name, "name-too-long");
    assert!(rt; fault_of(25).is_none());
    let words = words_of(&rt, &["drill", "-h"])?;
    let text = help_for(&words).ok_or("no help")?;
    assert!(rt; text.starts_with("usage: gdbix drill SEED UNITS N\n"));
    Ok(())
}

fn words_of(rt: &HostRuntime, texts: &[&str]) -> Result<Vec<String>, Fail> {
    let mut words = Vec::new(rt.alloc());
    for text in texts {
        words.push(String::from_str(rt.alloc(), text)?)?;
    }
    Ok(words)
}

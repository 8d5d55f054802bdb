//! Command lines from outside.
use crate::{Form, Task, Words, read};
use std::alloc::Global;

fn line(alloc: Global, texts: &[&str]) -> Result<Vec<String>, std::alloc::AllocError> {
    let mut words = Vec::new(alloc);
    for text in texts {
        words.push(String::from_str(alloc, text)?)?;
    }
    Ok(words)
}

/// Each option once, a file, and a demonstration.
#[test]
fn words_are_read(rt: HostRuntime) {
    let alloc = rt.alloc();
    let words = line(
        alloc,
        ["--steps=0006", "--form", "full", "--total", "70", "-"].as_slice(),
    )
    .expect(&rt, "memory");
    let read_words = read(alloc, words.as_slice()).expect(&rt, "memory");
    assert!(rt;
        read_words
            == Some(Words {
                steps: 6,
                total: Some(70),
                form: Form::Full,
                task: Task::File("-"),
            })
    );
    let words = line(alloc, ["--demo", "20000"].as_slice()).expect(&rt, "memory");
    let read_words = read(alloc, words.as_slice()).expect(&rt, "memory");
    assert!(rt;
        read_words
            == Some(Words {
                steps: 10_000_000,
                total: None,
                form: Form::Input,
                task: Task::Demo(20_000),
            })
    );
}

/// A wrong use.
#[test]
fn wrong_uses_are_none(rt: HostRuntime) {
    let alloc = rt.alloc();
    let words = line(alloc, ["--steps", "0"].as_slice()).expect(&rt, "memory");
    let read_words = read(alloc, words.as_slice()).expect(&rt, "memory");
    assert!(rt; read_words.is_none());
}

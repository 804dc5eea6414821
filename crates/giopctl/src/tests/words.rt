//! The words that `serve` takes where it wouldn't end by itself. Others are cases of the built
//! program (tests/cases/words, call_words, serve_words).
use crate::cli::{Task, task_of};
use giop_commands::serve::given::KeyWord;
use std::test::Fail;

#[test]
fn serve_takes_the_greatest_port_and_number_of_connections(rt: HostRuntime) -> Result<(), Fail> {
    let mut words = Vec::new(rt.alloc());
    for word in [
        "giopctl",
        "serve",
        "--connections",
        "65535",
        "--key",
        "6B6b",
        "--answers",
        "a",
        "--interface",
        "i",
        "--port",
        "65535",
        "--piece",
        "32",
    ] {
        words.push(String::from_str(rt.alloc(), word)?)?;
    }
    let Ok(Some(Task::Serve(serve))) = task_of(rt.alloc(), words.as_slice()) else {
        return Err(Fail::new("serve is refused"));
    };
    let KeyWord::Hex(key) = serve.key else {
        return Err(Fail::new("the key is a text"));
    };
    assert_eq!(rt; (serve.interface, serve.answers, key), ("i", "a", "6B6b"));
    assert_eq!(rt;
        (serve.port, serve.connections, serve.form.piece),
        (65_535, 65_535, 32)
    );
    Ok(())
}

//! The words that `call` and `serve` take, in several orders, and the defaults of some left out.
use crate::cli::{Task, task_of};
use giop_cdr::Order;
use std::alloc::{AllocError, Global};
use std::test::Fail;

fn words_of(alloc: Global, words: &[&str]) -> Result<Vec<String>, AllocError> {
    let mut list = Vec::new(alloc);
    for word in words {
        list.push(String::from_str(alloc, word)?)?;
    }
    Ok(list)
}

#[test]
fn call_takes_a_target_two_files_and_a_form(rt: HostRuntime) -> Result<(), Fail> {
    let rows: [(&[&str], Order, u32); 3] = [
        (
            &["giopctl", "call", "--target", "t", "--interface", "i", "f"],
            Order::Big,
            4096,
        ),
        (
            &[
                "giopctl",
                "call",
                "--piece",
                "24",
                "--target",
                "t",
                "f",
                "--interface",
                "i",
            ],
            Order::Big,
            24,
        ),
        (
            &[
                "giopctl",
                "call",
                "--target=t",
                "--interface=i",
                "--little",
                "--piece=1048584",
                "f",
            ],
            Order::Little,
            1_048_584,
        ),
    ];
    for (words, order, piece) in rows {
        let words = words_of(rt.alloc(), words)?;
        let Ok(Some(Task::Call(call))) = task_of(rt.alloc(), words.as_slice()) else {
            return Err(Fail::new("call is refused"));
        };
        assert_eq!(rt; (call.target, call.interface, call.file), ("t", "i", "f"));
        assert_eq!(rt; (call.form.order, call.form.piece), (order, piece));
    }
    Ok(())
}

#[test]
fn serve_takes_a_port_files_a_key_and_connections(rt: HostRuntime) -> Result<(), Fail> {
    let rows: [(&[&str], u16, &str, u32, u32); 2] = [
        (
            &[
                "giopctl",
                "serve",
                "--port",
                "1",
                "--interface",
                "i",
                "--answers",
                "a",
                "--key",
                "",
            ],
            1,
            "",
            1,
            4096,
        ),
        (
            &[
                "giopctl",
                "serve",
                "--connections",
                "65535",
                "--key",
                "6B6b",
                "--answers",
                "a",
                "--interface",
                "i",
                "--port",
                "65535",
                "--piece",
                "32",
            ],
            65_535,
            "6B6b",
            65_535,
            32,
        ),
    ];
    for (words, port, key, connections, piece) in rows {
        let words = words_of(rt.alloc(), words)?;
        let Ok(Some(Task::Serve(serve))) = task_of(rt.alloc(), words.as_slice()) else {
            return Err(Fail::new("serve is refused"));
        };
        assert_eq!(rt;
            (serve.interface, serve.answers, serve.key),
            ("i", "a", key)
        );
        assert_eq!(rt; (serve.port, serve.connections), (port, connections));
        assert_eq!(rt; serve.form.piece, piece);
    }
    Ok(())
}

//! The command line: the commands, their arguments and their help. The words of `call` and `serve`
//! are session_words.rt, those of limits limit_words.rt. A change here is one in docs/giopctl.md
//! and tests/program too.
ghost use Rattle.std.specs.Prelude.{◌≤◌, ◌^◌};
ghost use Rattle.giop_commands.specs.Check.{AreLimits};

mod file_words;
mod form_words;
mod limit_words;
mod object_words;
mod session_words;

pub use crate::cli::file_words::FileWord;
use crate::cli::file_words::{apart_from, file_words, interfaces};
use crate::cli::form_words::{json, json_numbers, lines_of, numbers_of, plain_lines_of};
use crate::cli::limit_words::{
    gathered_limit, gathered_limit_of, limited, limits_of, message_limit, message_limit_of,
};
pub use crate::cli::object_words::ObjectWords;
use crate::cli::object_words::{locate, locate_words, object_words, ping};
use crate::cli::session_words::{call, call_words, serve, serve_words, values_of};
pub use crate::cli::session_words::{CallWords, ServeWords};
use crate::files::apart;
use clap::error::ErrorKind;
use clap::{Arg, ArgAction, ArgMatches, Command, Error};
use giop_cdr::Order;
use giop_commands::{LineForm, Way};
use giop_session::Limits;
use std::alloc::{AllocError, Global};

/// What the command line asks for.
#[derive(Debug, Drop)]
pub enum Task<'a> {
    /// Show each message of a file.
    Dump(DumpWords<'a>),
    /// Show what becomes of the calls of a file.
    Check(CheckWords<'a>),
    /// Show each call of a connection.
    Trace(TraceWords<'a>),
    /// Write what a file holds in another form.
    Convert {
        /// The file's name, or `-` for the standard input.
        file: &'a str,
        /// From what, and into what.
        kind: ConvertKind<'a>,
    },
    /// Call operations of an object.
    Call(CallWords<'a>),
    /// Ask where an object is.
    Locate(ObjectWords<'a>),
    /// Ask an object whether it is there.
    Ping(ObjectWords<'a>),
    /// Serve an object.
    Serve(ServeWords<'a>),
}

/// What `dump` is asked for.
#[derive(Clone, Copy, Debug)]
pub struct DumpWords<'a> {
    /// The name of the interface's file, or `-` for the standard input; `None` where heads alone
    /// are shown.
    pub interface: Option<&'a str>,
    /// The file's name, or `-` for the standard input.
    pub file: &'a str,
    /// The greatest message size, the header not counted.
    pub limit: u32,
    /// The most octets of all Requests of which a piece is still to come.
    pub gathered: u64,
    /// The form of its lines.
    pub form: LineForm,
    pub ghost bounded: { gathered ≤ 2 ^ 62 },
}

/// What `check` is asked for.
#[derive(Debug, Drop)]
pub struct CheckWords<'a> {
    /// The files of interfaces.
    pub interfaces: Vec<FileWord<'a>>,
    /// The file's name, or `-` for the standard input.
    pub file: &'a str,
    /// What the end that hears it holds at most.
    pub limits: Limits,
    /// Whether what can't be decoded is refused.
    pub strict: bool,
    /// The form of its lines.
    pub form: LineForm,
    pub ghost bounded: { AreLimits limits },
}

/// What `trace` is asked for.
#[derive(Debug, Drop)]
pub struct TraceWords<'a> {
    /// The files of interfaces.
    pub interfaces: Vec<FileWord<'a>>,
    /// The name of the file of what the client sent, or `-` for the standard input.
    pub client: &'a str,
    /// The name of the file of what the server sent, if it is given.
    pub server: Option<&'a str>,
    /// The greatest message size, the header not counted.
    pub limit: u32,
    /// The form of its lines.
    pub form: LineForm,
}

/// The kinds of `convert`.
#[derive(Clone, Copy, Debug)]
pub enum ConvertKind<'a> {
    /// The text of a reference, shown in a form.
    Ior(LineForm),
    /// A corbaloc, and its reference, in a form.
    Corbaloc(LineForm),
    /// A value, between JSON and octets.
    Value {
        /// Which of them the file holds.
        way: Way,
        /// The name of the file of the value's description.
        desc: &'a str,
        /// The byte order of the octets.
        order: Order,
    },
}

const STATUSES: &str = "\
Exit statuses:
  0  done
  1  the input was refused
  2  usage
  3  reading or writing failed
  4  out of memory

Examples:
  giopctl dump examples/ping.giop
  giopctl check --interface examples/calculator.json examples/add.giop
  giopctl convert ior examples/printer.ior
  giopctl serve --port 2810 --interface examples/calculator.json --answers examples/answers.json \
--key 6b
  giopctl call --target corbaloc::1.2@127.0.0.1:2810/k --interface examples/calculator.json \
examples/calls.json
  giopctl ping --target corbaloc::1.2@127.0.0.1:2810/k";

const CHECK_HELP: &str = "\
The file is what a client sent on one connection. A server's end hears it, which answers nothing:
each of its calls has a line, in ascending order of the request id, with what stands under it:
  Gathering             fragments of it are still to come
  Asked OPERATION INS   a Request that waits for its reply, and its values as a JSON list
  Delivered OPERATION INS   a Request without a reply
  Undecoded FAULT       a whole message that can't be decoded: header, operation or body, and where,
                        from the message's first octet on
  LocateAsked           a LocateRequest
  Cancelled             a call that was cancelled
The last line tells how many octets are left, or the fault that ends the session. What stands in the
table then came before it.
With --json each call is {\"id\":ID,\"what\":WHAT,..}, in which WHAT is gathering, asked, delivered,
undecoded, locate_asked or cancelled; the last line is {\"rest\":N} or {\"fault\":{..}}.
The interface is a JSON object of operations, each with its ins and outs:
  {\"operations\":{\"add\":{
    \"ins\":[[\"a\",\"long\"],[\"b\",\"long\"]],\"outs\":[[\"sum\",\"long\"]]}}}
--interface KEY=FILE, any number of times, is the interface of the object of a key alone. KEY is as
in a corbaloc, with % and two hexadecimal digits for what isn't plain. It is what stands before the
first =; of =FILE there is none. Each line ends then with the object, as far as it is known:
  key HEX, profile TAG or reference INDEX

Exit statuses:
  0  no octets are left, or the client closed the connection
  1  octets are left, or there is another fault; or the interface is refused; with --strict also
     where anything is Undecoded
  2  usage
  3  reading or writing failed
  4  out of memory

Example:
  giopctl check --interface examples/calculator.json examples/add.giop";

const TRACE_HELP: &str = "\
CLIENT and SERVER are what the two ends of one connection sent. Each call has a line when it is over:
its id, what was asked and what it came to. With CLIENT alone the line is written when the request is
whole, and says nothing of what it came to. Asked is
  Asked TARGET OPERATION INS    a Request, and its values as a JSON list
  LocateAsked TARGET            a LocateRequest
  Undecoded FAULT OCTETS        one that can't be decoded: header, operation or body, and where
  Unfinished KIND OCTETS        one of which pieces are missing
  Unasked                       nothing, where an answer came all the same
and it came to
  Done 0 OUTS                   a result
  Done 1 EXCEPTION MEMBERS      a user exception
  Done 2 EXCEPTION MINOR 0xHEX COMPLETION   a system exception
  Done 3 IOR, Done 4 IOR        a forward
  LocateDone STATUS             a LocateReply
  OnewaySent, Cancelled, NoAnswer
  Undecoded reply FAULT [exception EXCEPTION] OCTETS, Unfinished KIND OCTETS
A message without a place in a call is told by itself, as Client KIND OCTETS or Server KIND OCTETS.
Calls that are open at the end follow in ascending order of their ids. The last lines tell how many
octets of each direction are left, or what is wrong with the header that stands there.
With --json each call is {\"id\":ID,\"asked\":{..},\"outcome\":{..}}, in which \"what\" says
what each is; the last lines are {\"end\":\"client\",\"rest\":N} or
{\"end\":\"client\",\"fault\":{..}}, and of \"server\" the same.
After each message of CLIENT those of SERVER are read up to the first Reply to a call whose request
hasn't been read; that one waits.
--interface KEY=FILE, any number of times, is the interface of the object of a key alone. KEY is as
in a corbaloc, with % and two hexadecimal digits for what isn't plain. It is what stands before the
first =; of =FILE there is none.

Exit statuses:
  0  both directions are messages and nothing else
  1  octets are left, or a header is wrong; or the interface is refused
  2  usage
  3  reading or writing failed
  4  out of memory

Example:
  giopctl trace --interface examples/demo.json examples/omniorb_client.giop \
examples/omniorb_server.giop";

const DUMP_HELP: &str = "\
Each message has a line: its offset in the file, its kind, its version where that is 1.0 or 1.1,
its byte order (BE or LE), `more` where fragments follow, its message size, and its request id
where one is read. A Request, Reply, LocateRequest or LocateReply that no fragments follow has a
second line, behind two spaces; `body` tells how many octets stand behind its fields:
  Request        response flags, the target, the operation, the number of service contexts, body
  Reply          status, the number of service contexts, body
  LocateRequest  the target
  LocateReply    status, body
  any of them    what is wrong with its fields, and where, from the message's first octet on
A target is an object key in hexadecimal, a profile's tag, or the number of a reference's profile.
With --interface a Request has a line of its body, if its head can be read:
  ins INS               its values as a JSON list
  undecoded FAULT       why they can't be read: operation or body, and where
The last Fragment of a Request has `joined`, how many octets its pieces are together, and then the
lines of the whole Request. A piece that isn't joined has `unjoined` and why.
The last line tells how many octets are left, or what is wrong with the header that stands there.
With --json each message is {\"at\":OFFSET,\"message\":KIND,..}, with its \"head\" and its \"ins\"
in it; the last line is {\"rest\":N} or {\"at\":OFFSET,\"fault\":{..}}.

Exit statuses:
  0  the file is messages and nothing else
  1  octets are left, or a header is wrong; or the interface is refused
  2  usage
  3  reading or writing failed
  4  out of memory

Examples:
  giopctl dump examples/ping.giop
  giopctl dump --interface examples/calculator.json examples/add.giop";

const CONVERT_HELP: &str = "\
One newline at the file's end is dropped. What is refused is told as `fault NUMBER NAME`, with the
place where it has one, and status 1.

Examples:
  giopctl convert ior examples/printer.ior
  giopctl convert corbaloc examples/printer.corbaloc
  giopctl convert encode examples/point.json --desc examples/point.desc.json
  giopctl convert decode examples/point.hex --desc examples/point.desc.json";

const IOR_HELP: &str = "\
The file holds IOR: and hexadecimal digits. The first line is the type id, the last one the text
again; between them each profile has a line: one of tag 0 its version, host, port, object key and
the number of its components, any other its tag and its octets.
With --json the line is {\"type_id\":TYPE,\"profiles\":[{..},..],\"ior\":TEXT}.

Example:
  giopctl convert ior examples/printer.ior";

const CORBALOC_HELP: &str = "\
The file holds corbaloc: and addresses of IIOP. The first line is the corbaloc written in full, the
second one the text of its reference.
With --json the line is {\"corbaloc\":TEXT,\"ior\":TEXT}.

Example:
  giopctl convert corbaloc examples/printer.corbaloc";

const ENCODE_HELP: &str = "\
The file holds a value in JSON, and the file of --desc its description. The line is the value's
octets from offset 0 on, in hexadecimal.

Example:
  giopctl convert encode examples/point.json --desc examples/point.desc.json --little";

const DECODE_HELP: &str = "\
The file holds octets in hexadecimal, from offset 0 on, and the file of --desc the description of
the value that they are. The line is the value in JSON.

Example:
  giopctl convert decode examples/point.hex --desc examples/point.desc.json";

/// What the words ask for, of which the first is the program's name. There is no task where they
/// are refused or ask for help or the version: then the error has the text to print.
pub fn task_of<'a>(alloc: Global, words: &'a [String]) -> Result<Option<Task<'a>>, Error> {
    let matches = giopctl(alloc)?.try_get_matches_from(words)?;
    if let Some(dump) = matches.subcommand_matches("dump") {
        return judged(alloc, dumped(dump));
    }
    if let Some(check) = matches.subcommand_matches("check") {
        return judged(
            alloc,
            checked(check, file_words(alloc, check, "interface")?),
        );
    }
    if let Some(trace) = matches.subcommand_matches("trace") {
        return judged(alloc, traced(trace, file_words(alloc, trace, "interface")?));
    }
    if let Some(call) = matches.subcommand_matches("call") {
        let files = file_words(alloc, call, "interface")?;
        return judged(alloc, called(call, files, values_of(alloc, call)?));
    }
    if let Some(locate) = matches.subcommand_matches("locate") {
        return judged(alloc, located(locate));
    }
    if let Some(ping) = matches.subcommand_matches("ping") {
        return judged(alloc, pinged(ping));
    }
    if let Some(serve) = matches.subcommand_matches("serve") {
        let interfaces = file_words(alloc, serve, "interface")?;
        return judged(
            alloc,
            served(serve, interfaces, file_words(alloc, serve, "answers")?),
        );
    }
    match matches.subcommand_matches("convert") {
        Some(convert) => judged(alloc, conversion(convert)),
        None => Ok(None),
    }
}

// What a command asks for, or the error of what is wrong with one of its words.
fn judged<'a>(
    alloc: Global,
    task: Result<Option<Task<'a>>, &'static str>,
) -> Result<Option<Task<'a>>, Error> {
    match task {
        Ok(task) => Ok(task),
        Err(wrong) => Err(misused(alloc, wrong)?),
    }
}

// The error of a word that its argument doesn't take.
fn misused(alloc: Global, wrong: &str) -> Result<Error, AllocError> {
    let mut command = giopctl(alloc)?;
    command.error(ErrorKind::ValueValidation, wrong)
}

fn conversion<'a>(convert: &ArgMatches<'a>) -> Result<Option<Task<'a>>, &'static str> {
    if let Some(ior) = convert.subcommand_matches("ior") {
        return Ok(converted(ior, Some(ConvertKind::Ior(plain_lines_of(ior)))));
    }
    if let Some(corbaloc) = convert.subcommand_matches("corbaloc") {
        let form = plain_lines_of(corbaloc);
        return Ok(converted(corbaloc, Some(ConvertKind::Corbaloc(form))));
    }
    if let Some(encode) = convert.subcommand_matches("encode") {
        return value_conversion(encode, Way::Encode);
    }
    match convert.subcommand_matches("decode") {
        Some(decode) => value_conversion(decode, Way::Decode(numbers_of(decode))),
        None => Ok(None),
    }
}

fn value_conversion<'a>(
    matches: &ArgMatches<'a>,
    way: Way,
) -> Result<Option<Task<'a>>, &'static str> {
    if let (Some(desc), Some(file)) = (matches.get_str("desc"), matches.get_str("FILE")) {
        apart(desc, file)?;
    }
    Ok(converted(matches, value_of(matches, way)))
}

fn dumped<'a>(matches: &ArgMatches<'a>) -> Result<Option<Task<'a>>, &'static str> {
    let limit = message_limit_of(matches)?;
    let gathered = gathered_limit_of(matches)?;
    let Some(file) = matches.get_str("FILE") else {
        return Ok(None);
    };
    let interface = matches.get_str("interface");
    if let Some(interface) = interface {
        apart(interface, file)?;
    }
    Ok(Some(Task::Dump(DumpWords {
        interface,
        file,
        limit,
        gathered,
        form: lines_of(matches),
    })))
}

// The files of an option, or what is wrong with one of its words.
type Files<'a> = Result<Vec<FileWord<'a>>, &'static str>;

fn checked<'a>(
    matches: &ArgMatches<'a>,
    interfaces: Files<'a>,
) -> Result<Option<Task<'a>>, &'static str> {
    let limits = limits_of(matches)?;
    let interfaces = interfaces?;
    let Some(file) = matches.get_str("FILE") else {
        return Ok(None);
    };
    apart_from(interfaces.as_slice(), file)?;
    let strict = matches.get_flag("strict");
    Ok(Some(Task::Check(CheckWords {
        interfaces,
        file,
        limits,
        strict,
        form: lines_of(matches),
    })))
}

fn traced<'a>(
    matches: &ArgMatches<'a>,
    interfaces: Files<'a>,
) -> Result<Option<Task<'a>>, &'static str> {
    let limit = message_limit_of(matches)?;
    let interfaces = interfaces?;
    let Some(client) = matches.get_str("CLIENT") else {
        return Ok(None);
    };
    let server = matches.get_str("SERVER");
    apart_from(interfaces.as_slice(), client)?;
    if let Some(server) = server {
        apart_from(interfaces.as_slice(), server)?;
        apart(client, server)?;
    }
    let form = lines_of(matches);
    Ok(Some(Task::Trace(TraceWords {
        interfaces,
        client,
        server,
        limit,
        form,
    })))
}

fn called<'a>(
    matches: &ArgMatches<'a>,
    interfaces: Files<'a>,
    values: Vec<&'a str>,
) -> Result<Option<Task<'a>>, &'static str> {
    Ok(Some(Task::Call(call_words(matches, interfaces?, values)?)))
}

fn located<'a>(matches: &ArgMatches<'a>) -> Result<Option<Task<'a>>, &'static str> {
    Ok(Some(Task::Locate(locate_words(matches)?)))
}

fn pinged<'a>(matches: &ArgMatches<'a>) -> Result<Option<Task<'a>>, &'static str> {
    Ok(Some(Task::Ping(object_words(matches)?)))
}

fn served<'a>(
    matches: &ArgMatches<'a>,
    interfaces: Files<'a>,
    answers: Files<'a>,
) -> Result<Option<Task<'a>>, &'static str> {
    Ok(Some(Task::Serve(serve_words(matches, interfaces?, answers?)?)))
}

fn converted<'a>(matches: &ArgMatches<'a>, kind: Option<ConvertKind<'a>>) -> Option<Task<'a>> {
    let file = matches.get_str("FILE")?;
    let kind = kind?;
    Some(Task::Convert { file, kind })
}

fn value_of<'a>(matches: &ArgMatches<'a>, way: Way) -> Option<ConvertKind<'a>> {
    let desc = matches.get_str("desc")?;
    let order = if matches.get_flag("little") {
        Order::Little
    } else {
        Order::Big
    };
    Some(ConvertKind::Value { way, desc, order })
}

fn giopctl<'a>(alloc: Global) -> Result<Command<'a>, AllocError> {
    Command::new(alloc, "giopctl")
        .about(
            "Shows what GIOP messages, references and CDR values hold, checks sessions, calls and serves",
        )
        .version("0.1.0")
        .subcommand_required(true)
        .arg_required_else_help(true)
        .after_help(STATUSES)
        .subcommand(dump(alloc)?)?
        .subcommand(check(alloc)?)?
        .subcommand(trace(alloc)?)?
        .subcommand(convert(alloc)?)?
        .subcommand(call(alloc)?)?
        .subcommand(locate(alloc)?)?
        .subcommand(ping(alloc)?)?
        .subcommand(serve(alloc)?)
}

fn dump<'a>(alloc: Global) -> Result<Command<'a>, AllocError> {
    let file = Arg::new(alloc, "FILE")
        .required(true)
        .help("A file of GIOP messages, or - for the standard input");
    let interface = Arg::new(alloc, "interface")
        .long("interface")
        .value_name("FILE")
        .help("The file of an interface, in JSON, by which bodies of Requests are shown");
    Command::new(alloc, "dump")
        .about("Shows each message of a file")
        .after_help(DUMP_HELP)
        .arg(interface)?
        .arg(json(alloc))?
        .arg(json_numbers(alloc))?
        .arg(message_limit(alloc))?
        .arg(gathered_limit(alloc))?
        .arg(file)
}

fn check<'a>(alloc: Global) -> Result<Command<'a>, AllocError> {
    let strict = Arg::new(alloc, "strict")
        .long("strict")
        .action(ArgAction::SetTrue)
        .help("What can't be decoded is refused: status 1");
    let file = Arg::new(alloc, "FILE").required(true).help(
        "A file of what a client sent, or - for the standard input",
    );
    let command = Command::new(alloc, "check")
        .about("Shows what becomes of the calls of a file")
        .after_help(CHECK_HELP)
        .arg(interfaces(alloc))?
        .arg(json(alloc))?
        .arg(json_numbers(alloc))?
        .arg(strict)?;
    limited(alloc, command)?.arg(file)
}

fn trace<'a>(alloc: Global) -> Result<Command<'a>, AllocError> {
    let client = Arg::new(alloc, "CLIENT").required(true).help(
        "A file of what the client sent, or - for the standard input",
    );
    let server = Arg::new(alloc, "SERVER").help("A file of what the server sent, or -");
    Command::new(alloc, "trace")
        .about("Shows each call of a connection, and what it came to")
        .after_help(TRACE_HELP)
        .arg(interfaces(alloc))?
        .arg(json(alloc))?
        .arg(json_numbers(alloc))?
        .arg(message_limit(alloc))?
        .arg(client)?
        .arg(server)
}

fn convert<'a>(alloc: Global) -> Result<Command<'a>, AllocError> {
    Command::new(alloc, "convert")
        .about("Writes what a file holds in another form")
        .subcommand_required(true)
        .arg_required_else_help(true)
        .after_help(CONVERT_HELP)
        .subcommand(of_reference(alloc, "ior", "Shows the text of a reference", IOR_HELP)?)?
        .subcommand(of_reference(
            alloc,
            "corbaloc",
            "Writes a corbaloc in full, and its reference",
            CORBALOC_HELP,
        )?)?
        .subcommand(of_value(
            alloc,
            "encode",
            "Writes the octets of a value in JSON",
            ENCODE_HELP,
        )?)?
        .subcommand(of_value(
            alloc,
            "decode",
            "Writes octets as a value in JSON",
            DECODE_HELP,
        )?
        .arg(json_numbers(alloc))?)
}

// A kind of `convert`, by its name, with what it does and how.
fn kind<'a>(
    alloc: Global,
    name: &'a str,
    about: &'a str,
    help: &'a str,
) -> Result<Command<'a>, AllocError> {
    let file = Arg::new(alloc, "FILE")
        .required(true)
        .help("The file to convert, or - for the standard input");
    Command::new(alloc, name)
        .about(about)
        .after_help(help)
        .arg(file)
}

// A kind of `convert` for a reference, which may be told as JSON.
fn of_reference<'a>(
    alloc: Global,
    name: &'a str,
    about: &'a str,
    help: &'a str,
) -> Result<Command<'a>, AllocError> {
    kind(alloc, name, about, help)?.arg(json(alloc))
}

// A kind of `convert` for a value: it takes the value's description too, and may take a byte order.
fn of_value<'a>(
    alloc: Global,
    name: &'a str,
    about: &'a str,
    help: &'a str,
) -> Result<Command<'a>, AllocError> {
    let desc = Arg::new(alloc, "desc")
        .long("desc")
        .required(true)
        .value_name("FILE")
        .help("The file of the value's description, in JSON");
    let little = Arg::new(alloc, "little")
        .long("little")
        .action(ArgAction::SetTrue)
        .help("The octets are little-endian, not big-endian");
    kind(alloc, name, about, help)?.arg(desc)?.arg(little)
}

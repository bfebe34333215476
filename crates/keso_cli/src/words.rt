ghost use Rattle.std.specs.Prelude.{◌≡◌, map, string_bytes};
ghost use Rattle.std.specs.List.{list_all};
ghost use Rattle.std.specs.Option.{option_map};
ghost use Rattle.keso_cli.specs.Request.{request_of, build_of, trace_of, is_build, is_trace, are_classes, is_name};
ghost use Rattle.keso_cli.specs.Asked.{asked};

/// The most class files that a command takes.
const MOST_CLASSES: usize = 2048;

/// The names of an application's files: its configuration, and from 1 to 2,048 class files.
#[derive(Clone, Copy)]
pub struct Inputs<'a> {
    pub config: &'a str,
    pub classes: &'a [String],
}

/// The names that a `build` was given.
#[derive(Clone, Copy)]
pub struct Build<'a> {
    pub inputs: Inputs<'a>,
    pub base: &'a str,
}

/// The names that a `trace` was given.
#[derive(Clone, Copy)]
pub struct Trace<'a> {
    pub inputs: Inputs<'a>,
    pub script: &'a str,
}

/// What the words of a command ask for.
#[derive(Clone, Copy)]
pub enum Command<'a> {
    Build(Build<'a>),
    Trace(Trace<'a>),
}

/// Whether a word may be a name: it isn't empty, and doesn't begin with a hyphen.
fn is_name(word: &str) -> bool
    ensures { result ≡ is_name word.now }
{
    match word.as_bytes() {
        [] => false,
        [first, ..] => *first != b'-',
    }
}

/// Whether each of the words may be a name.
fn are_names(words: &[String]) -> bool
    ensures { result ≡ list_all (λ word. is_name (string_bytes word)) words.now }
{
    words.iter().all(|word| is_name(word.as_str()))
}

/// Whether words name as many class files as a command takes.
fn are_classes(words: &[String]) -> bool
    ensures { result ≡ are_classes (map string_bytes words.now) }
{
    1 <= words.len() && words.len() <= MOST_CLASSES && are_names(words)
}

/// Whether these words are those of a build.
fn is_build(build: &str, config: &str, classes: &[String], option: &str, base: &str) -> bool
    ensures { result ≡ is_build build.now config.now (map string_bytes classes.now) option.now base.now }
{
    build == "build" && is_name(config) && are_classes(classes) && option == "-o" && is_name(base)
}

/// The build that the words are, if they are one.
fn build_of(words: &[String]) -> Option<Command<'_>>
    ensures { option_map asked result ≡ build_of (map string_bytes words.now) }
{
    let [build, config, rest @ ..] = words else {
        return None;
    };
    let (classes, ending) = rest.split_at(rest.len().saturating_sub(2));
    let [option, base] = ending else {
        return None;
    };
    let (config, base) = (config.as_str(), base.as_str());
    if is_build(build.as_str(), config, classes, option.as_str(), base) {
        let inputs = Inputs { config, classes };
        Some(Command::Build(Build { inputs, base }))
    } else {
        None
    }
}

/// Whether these words are those of a trace.
fn is_trace(trace: &str, config: &str, script: &str, classes: &[String]) -> bool
    ensures { result ≡ is_trace trace.now config.now script.now (map string_bytes classes.now) }
{
    trace == "trace" && is_name(config) && is_name(script) && are_classes(classes)
}

/// The trace that the words are, if they are one.
fn trace_of(words: &[String]) -> Option<Command<'_>>
    ensures { option_map asked result ≡ trace_of (map string_bytes words.now) }
{
    let [trace, config, script, classes @ ..] = words else {
        return None;
    };
    let (config, script) = (config.as_str(), script.as_str());
    if is_trace(trace.as_str(), config, script, classes) {
        let inputs = Inputs { config, classes };
        Some(Command::Trace(Trace { inputs, script }))
    } else {
        None
    }
}

/// The command that the words are, if they are one.
pub fn command_of(words: &[String]) -> Option<Command<'_>>
    ensures { option_map asked result ≡ request_of (map string_bytes words.now) }
{
    match build_of(words) {
        Some(command) => Some(command),
        None => trace_of(words),
    }
}

//! What the words of a command line ask for.

ghost use Rattle.std.specs.Prelude.{◌≡◌, ◌≤◌, false, option_map, Some};
ghost use Rattle.command_words.specs.Commands.{InRange, request_of};
ghost use Rattle.asked_texts.specs.Commands.{IsInRange, IsCrew, Of_joined, job, question, run_question, save_question, question_of, workers_asked, refined_asked};

/// What is done with a joined text.
#[derive(Clone, Copy)]
pub enum Command<'b, 'a> {
    /// Runs a circuit under a stimulus.
    Run,
    /// Says whether a circuit has a fault.
    Check,
    /// Lists the widths of a circuit.
    Widths,
    /// Lists the partitions of a circuit, so many as it says, from 1 to 64.
    Cut(u32),
    /// Lists the partitions of a circuit's refined cut, so many as it says, from 1 to 64.
    Refine(u32),
    /// Runs a circuit under a stimulus and dumps the changes of the leaves of these names, or of the watched leaves where there is none.
    Vcd(&'b [&'a str]),
    /// Runs a circuit under a stimulus from a state, or from all 0 where there is none, and writes the state that it leads to.
    Save(Option<StateText<'b>>),
    /// Runs a circuit under a stimulus from a state.
    Resume(StateText<'b>),
    /// Runs a circuit under a stimulus and writes what it prints.
    Log,
}

/// The text of a state, or that it has more bytes than its limit.
#[derive(Clone, Copy)]
pub enum StateText<'b> {
    Told(&'b [u8]),
    TooLong,
}

/// What is done with a state: a run from it is written as the state that it leads to, or as its trace.
#[derive(Clone, Copy)]
pub enum Keeping {
    Save,
    Resume,
}

/// A command, with the names of the texts that it reads.
#[derive(Clone, Copy)]
pub enum Asked<'b, 'a> {
    /// The text holds the circuit, and behind the line `%stimulus` its stimulus.
    Joined(Command<'b, 'a>, &'a str),
    /// A run of a circuit's text under a stimulus's text.
    Two(&'a str, &'a str),
    /// What is done with a joined text and a state's text.
    State(Keeping, &'a str, &'a str),
    /// A run of a circuit that is made, and no text is read. Both numbers are from 1 to 4,096.
    Made { cycles: u32, size: u32 },
}

/// What is asked for, by how many workers a circuit is run, from 1 to 64, and whether the refined cut is run. Neither changes a byte.
#[derive(Clone, Copy)]
pub struct Order<'b, 'a> {
    pub asked: Asked<'b, 'a>,
    pub workers: u32,
    pub refined: bool,
}

/// What a command asks for.
pub fn order_of<'b, 'a>(command: &'b command_words::Command<'a>) -> Order<'b, 'a>
    requires { InRange (request_of command.now) }
    ensures asked { question_of (Some (request_of command.now)) ≡ Some (question result.asked) }
    ensures workers { result.workers ≡ workers_asked (request_of command.now) }
    ensures refined { result.refined ≡ refined_asked (request_of command.now) }
    ensures in_range { IsInRange (question result.asked) }
    ensures crew { IsCrew result.workers }
{
    match command {
        command_words::Command::Run {
            workers,
            refined,
            circuit,
            stimulus,
        } => Order {
            asked: run_of(circuit, *stimulus),
            workers: *workers,
            refined: *refined,
        },
        command_words::Command::Check { circuit } => joined(Command::Check, circuit, 1),
        command_words::Command::Widths { circuit } => joined(Command::Widths, circuit, 1),
        command_words::Command::Cut { workers, circuit } => {
            joined(Command::Cut(*workers), circuit, *workers)
        }
        command_words::Command::Make {
            workers,
            cycles,
            size,
        } => Order {
            asked: Asked::Made {
                cycles: *cycles,
                size: *size,
            },
            workers: *workers,
            refined: false,
        },
        command_words::Command::Vcd {
            workers,
            circuit,
            leaves,
        } => joined(Command::Vcd(leaves.as_slice()), circuit, *workers),
        command_words::Command::Refine { workers, circuit } => {
            joined(Command::Refine(*workers), circuit, *workers)
        }
        command_words::Command::Save {
            workers,
            circuit,
            state,
        } => Order {
            asked: save_of(circuit, *state),
            workers: *workers,
            refined: false,
        },
        command_words::Command::Resume {
            workers,
            circuit,
            state,
        } => Order {
            asked: Asked::State(Keeping::Resume, circuit, state),
            workers: *workers,
            refined: false,
        },
        command_words::Command::Log { workers, circuit } => joined(Command::Log, circuit, *workers),
    }
}

/// A command on a joined text, by so many workers.
fn joined<'b, 'a>(command: Command<'b, 'a>, circuit: &'a str, workers: u32) -> Order<'b, 'a>
    ensures asked { question result.asked ≡ Of_joined (job command.entry) circuit.now }
    ensures workers { result.workers ≡ workers }
    ensures plain { result.refined ≡ false }
{
    Order {
        asked: Asked::Joined(command, circuit),
        workers,
        refined: false,
    }
}

/// What `run` asks for.
fn run_of<'b, 'a>(circuit: &'a str, stimulus: Option<&'a str>) -> Asked<'b, 'a>
    ensures asked { question result ≡ run_question circuit.now (option_map (λ name. name.now) stimulus.entry) }
    ensures in_range { IsInRange (question result) }
{
    match stimulus {
        None => Asked::Joined(Command::Run, circuit),
        Some(stimulus) => Asked::Two(circuit, stimulus),
    }
}

/// What `save` asks for.
fn save_of<'b, 'a>(circuit: &'a str, state: Option<&'a str>) -> Asked<'b, 'a>
    ensures asked { question result ≡ save_question circuit.now (option_map (λ name. name.now) state.entry) }
    ensures in_range { IsInRange (question result) }
{
    match state {
        None => Asked::Joined(Command::Save(None), circuit),
        Some(state) => Asked::State(Keeping::Save, circuit, state),
    }
}

//! Laws of the whole program: the numbers of the limits, so that none of them can change unseen; and that what both
//! ends of calls say is one world (`once`), and a gateway between them forwards each call once (`gates_once`).

ghost use Rattle.std.specs.Prelude.{◌≡◌};
ghost use Rattle.ice_encoding.specs.declared.limits.TheConstants.{GREATEST, LARGEST, SMALLEST};
ghost use Rattle.ice_types.specs.declared.schema.TheConstants.{MOST_DEPTH, MOST_SMALLEST, MOST_BASES, MOST_NUMBER};
ghost use Rattle.ice_ports.specs.declared.ports.TheConstants.{MOST_OF_A_READ};
ghost use Rattle.slice_lexer.specs.declared.lexer.TheConstants.{MOST_BYTES};
ghost use Rattle.slice_meaning.specs.declared.limits.TheConstants.{MOST_FILES};
ghost use Rattle.slice_heads.specs.declared.arena.TheConstants.{MOST_INSTANCES};
ghost use Rattle.graph_json.specs.declared.text.TheConstants.{MOST_TEXT};
ghost use Rattle.ice_relay.specs.declared.comparing.TheConstants.{MOST_COMPARED};
ghost use Rattle.ice_relay.specs.declared.drilling.TheConstants.{MOST_NODES};
ghost use Rattle.message_dump.specs.declared.dump.TheConstants.{MOST_MESSAGES};
ghost use Rattle.ice_audit.specs.declared.verdict.TheConstants.{MOST_BYTES as MOST_CAPTURED};
ghost use Rattle.node_commands.specs.declared.words.TheConstants.{MOST_OF_A_WORD};
ghost use Rattle.node_commands.specs.declared.limits.TheConstants.{MOST_RETRIES};
ghost use Rattle.call_command.specs.declared.words.TheConstants.{MOST_TIMES};
ghost use Rattle.call_command.specs.declared.arguments.TheConstants.{MOST_OF_ARGUMENTS};
ghost use Rattle.serve_command.specs.declared.words.TheConstants.{MOST_WORDS};
ghost use Rattle.node_commands.specs.declared.limits.TheConstants.{MOST_CONNECTIONS};
ghost use Rattle.serve_command.specs.declared.operands.TheConstants.{MOST_WORKERS};
ghost use Rattle.node_commands.specs.declared.limits.TheConstants.{MOST_MESSAGES as MOST_SERVED};
ghost use Rattle.ice_node.specs.Promises.{NetFormsApart};
ghost use Rattle.ice_node.specs.Through.{GatedSuccessesHaveTurns, GatedTurnsAreSingle};
ghost use Rattle.ice_node.specs.Through.{CalledTurnsAreSingle, StarvedGatedTurnsAreSingle};

pub use gate_command::gates_once;
pub use once_law::{once, successes_have_turns, turns_are_single};

/// The limits that the definitions name, each by its number: of encapsulations and messages, types, reads, Slice
/// files, instances, JSON texts, compared values, drilled nodes, messages of one input, each end of a capture, words,
/// calls and their arguments, and of serving words, workers, connections and messages.
pub fn limits_numbered()
    ensures encapsulation { (SMALLEST ≡ 6) × (LARGEST ≡ 1048576) × (GREATEST ≡ 2147483647) }
    ensures types { (MOST_DEPTH ≡ 100) × (MOST_SMALLEST ≡ 1048576) × (MOST_BASES ≡ 1000) × (MOST_NUMBER ≡ 2147483647) }
    ensures read { MOST_OF_A_READ ≡ 4096 }
    ensures files { (MOST_BYTES ≡ 1000000) × (MOST_FILES ≡ 100) }
    ensures instances { MOST_INSTANCES ≡ 100000 }
    ensures text { MOST_TEXT ≡ 16777216 }
    ensures compared { MOST_COMPARED ≡ 2147483647 }
    ensures nodes { MOST_NODES ≡ 50000 }
    ensures messages { MOST_MESSAGES ≡ 1000000 }
    ensures captures { MOST_CAPTURED ≡ 16777216 }
    ensures word { MOST_OF_A_WORD ≡ 8192 }
    ensures calls { (MOST_RETRIES ≡ 10) × (MOST_TIMES ≡ 1000) × (MOST_OF_ARGUMENTS ≡ 1000000) }
    ensures serving { (MOST_WORDS ≡ 64) × (MOST_WORKERS ≡ 64) × (MOST_CONNECTIONS ≡ 1000000) × (MOST_SERVED ≡ 1000000) }
{}

/// Words are a form of one of `call`, `serve` and `gate` at most.
pub fn net_forms_apart()
    ensures { NetFormsApart }
{}

/// What `call` and the servers that it calls say, joined: over all attempts at a message, wherever its proxy led before
/// each of them, whatever was lost, closed or tried again, and wherever memory ran out, a call that is not idempotent
/// has one turn of an object at most. (Ice manual, "At-Most-Once Semantics" and "Locators".)
pub fn called_turns_are_single()
    ensures { CalledTurnsAreSingle }
{}

/// What a gateway and the servers behind it say, joined: over all attempts at a message that it forwarded, whatever was
/// lost, closed or tried again, and wherever the gateway's memory ran out, a call that is not idempotent has one turn
/// of an object at most. (Ice manual, "At-Most-Once Semantics".)
pub fn gated_turns_are_single()
    ensures handled { GatedTurnsAreSingle }
    ensures starved { StarvedGatedTurnsAreSingle }
{}

/// And a success that its caller is told is the answer of such a turn, with the results written anew.
pub fn gated_successes_have_turns()
    ensures { GatedSuccessesHaveTurns }
{}

//! Laws of the statements of a run: a law is the contract of a function with an empty body.
ghost use Rattle.std.specs.Prelude.{◌≡◌, List, All, map};
ghost use Rattle.txn_types.specs.declared.message.Statement.{Statement};
ghost use Rattle.txn_model.specs.declared.ran.Ran.{Ran};
ghost use Rattle.chunk_map.specs.Map.{Map, IsMap};
ghost use Rattle.cluster_core.specs.Answering.{answered_of};
ghost use Rattle.cluster_core.specs.Ledger.{answered_in};
ghost use Rattle.cluster_core.specs.Nodes.{Nodes, commits_of};
ghost use Rattle.cluster_core.specs.Trace.{IsFresh, IsTrace};
ghost use Rattle.router_state.specs.State.{RouterState};
ghost use Rattle.txn_semantics.specs.Answers.{ReadsRight, RefusedRight};
ghost use Rattle.answer_laws.specs.Opened.{opened_in};
ghost use Rattle.one_shard_laws.specs.Concluding.{StartsAlone, ServedRight};
ghost use Rattle.chain_laws.specs.Chained.{WasSent, HasBoot, IsLeftAlone};
ghost use Rattle.chain_laws.specs.Completing.{IsCompleted, completed_in};

/// What a run answers is answered of the statements whose Answers have all come, in their order;
/// each was opened by a request, and its Answers were sent.
pub fn answers_are_of_completed_statements()
    ensures of { (routers : List RouterState) (run : List Ran)
        → answered_in routers run ≡ map answered_of (completed_in routers run) }
    ensures come { (start : Nodes) (run : List Ran) (trace : List Nodes) (now : Nodes)
        → IsTrace start run trace now
        → All (IsCompleted now.sent (opened_in start.routers run)) (completed_in start.routers run) }
{}

/// On one shard the first statement of a transaction names no boot of the shard, and each later one
/// the boot in which the one before it was answered.
pub fn each_statement_names_the_boot_of_the_one_before()
    ensures { (chunks : Map) (start : Nodes) (run : List Ran) (trace : List Nodes) (now : Nodes)
        → StartsAlone chunks start → IsMap chunks → IsTrace start run trace now → (m : Statement)
        → WasSent now.sent m → HasBoot (completed_in start.routers run) m }
{}

/// The statements of a transaction name one time to read at. None is named for a command by itself
/// alone, which is the only statement of its transaction.
pub fn statements_of_a_transaction_read_alike()
    ensures alike { (chunks : Map) (start : Nodes) (run : List Ran) (trace : List Nodes)
        (now : Nodes) → StartsAlone chunks start → IsMap chunks → IsTrace start run trace now → (m n : Statement)
        → WasSent now.sent m → WasSent now.sent n → m.tag ≡ n.tag → m.read_at ≡ n.read_at }
    ensures left { (chunks : Map) (start : Nodes) (run : List Ran) (trace : List Nodes)
        (now : Nodes) → StartsAlone chunks start → IsMap chunks → IsTrace start run trace now → (m : Statement)
        → WasSent now.sent m → IsLeftAlone m }
{}

/// On one shard each answer is what its statement means over the commits as they are now, under what
/// the answered statements of its transaction wrote before it; and each refusal has its cause there.
pub fn answers_of_one_shard_are_right()
    ensures reads { (chunks : Map) (start : Nodes) (run : List Ran) (trace : List Nodes)
        (now : Nodes) → StartsAlone chunks start → IsMap chunks → IsTrace start run trace now
        → ReadsRight (commits_of now) (answered_in start.routers run) }
    ensures refusals { (chunks : Map) (start : Nodes) (run : List Ran) (trace : List Nodes)
        (now : Nodes) → StartsAlone chunks start → IsMap chunks → IsTrace start run trace now
        → RefusedRight (commits_of now) (answered_in start.routers run) }
{}

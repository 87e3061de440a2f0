//! What holds of every list of steps, in whatever order threads make them. Each function's contract
//! is a law; calling the function does nothing.

ghost use Rattle.std.specs.Prelude.{◌≡◌, ◌↔◌, ◌<◌, ◌≤◌, ◌++◌, ℕ, Bool, List, [], ◌∷◌, Option, Some};
ghost use Rattle.std.specs.Prelude.{Result, length, map, slice_get, true};
ghost use Rattle.endgame_search.specs.Task.{TaskView};
ghost use Rattle.job_board.specs.Limits.{most_senders};
ghost use Rattle.job_board.specs.declared.client.Turn.TheVariants.{Drained};
ghost use Rattle.job_board.specs.declared.faults.JobFault.{JobFault};
ghost use Rattle.job_board.specs.declared.faults.NoSender.{NoSender};
ghost use Rattle.job_board.specs.declared.faults.SubmitFault.{SubmitFault};
ghost use Rattle.job_board.specs.declared.jobs.Handed.{Handed};
ghost use Rattle.job_board.specs.declared.jobs.Job.{Job};
ghost use Rattle.job_board.specs.declared.jobs.JobId.{JobId};
ghost use Rattle.job_board.specs.declared.steps.Step.{Step};
ghost use Rattle.job_board.specs.declared.steps.Step.TheVariants as step;
ghost use Rattle.job_board.specs.declared.steps.Reply.{Reply};
ghost use Rattle.job_board.specs.declared.steps.Reply.TheVariants as reply;
ghost use Rattle.job_board.specs.Senders.{SenderView, BoardView, empty_content};
ghost use Rattle.job_board.specs.Boards.{AllDone, IsBoardView};
ghost use Rattle.job_board.specs.Client.{ClientView, new_client};
ghost use Rattle.job_board.specs.Replies.{Submits, after_submit, Takes, after_take, Finishes};
ghost use Rattle.job_board.specs.Replies.{after_finish, give_back_reply, after_give_back};
ghost use Rattle.job_board.specs.Replies.{deliver_reply, after_deliver, close_reply, after_close};
ghost use Rattle.job_board.specs.Steps.{AreLawful, after_all, IsLegal, IsDrained, content};
ghost use Rattle.job_board.specs.Steps.{Continues};
ghost use Rattle.job_board.specs.Histories.{HaveEnded, InOrder, IsStateOf};
ghost use Rattle.job_board.specs.Histories.{accepted_tasks, deliveries_to, is_closed};
ghost use Rattle.job_board.specs.Services.{Event, Returned, Leads, sent_tasks, received_answers};
ghost use Rattle.job_board.specs.Traces.{trace_steps, trace_replies};

use crate::board::Board;

/// In a legal history the answers that are delivered to a sender are, in order and each once, those
/// of a prefix of its accepted tasks. If the sender is drained they are those of all its
/// accepted tasks, and from then on none of its tasks is accepted and no answer is delivered. After
/// it is closed, none of its tasks is accepted.
pub fn deliveries_are_in_order()
    ensures in_order { (n s : ℕ) (ss : List Step) (rs : List Reply)
        → s < n → IsLegal n ss rs
        → InOrder (accepted_tasks s ss rs) 0 (deliveries_to s ss rs) }
    ensures drained { (n s : ℕ) (ss : List Step) (rs : List Reply)
        → s < n → IsDrained n s ss rs
        → length (deliveries_to s ss rs) ≡ length (accepted_tasks s ss rs) }
    ensures stays { (n s : ℕ) (ss later : List Step) (rs replies : List Reply)
        → s < n → IsLegal n ss rs → IsDrained n s ss rs
        → AreLawful (content n ss rs) later replies
        → (accepted_tasks s later replies ≡ []) × (deliveries_to s later replies ≡ []) }
    ensures closed { (n s : ℕ) (ss later : List Step) (rs replies : List Reply)
        → s < n → IsLegal n ss rs → is_closed s ss rs ≡ true
        → AreLawful (content n ss rs) later replies
        → accepted_tasks s later replies ≡ [] }
{}

/// Take any list of the accepted submits and the turns of a client at a desk, whatever other
/// threads do there. The answers that the client received are, in order and each once, those of a
/// prefix of the tasks that it sent. If the list ends with a turn that returns `Drained`, they are
/// those of all these tasks. `Client::sent` is the list of these tasks, and `Client::received` the
/// number of these answers.
pub fn clients_receive_in_order()
    ensures in_order { (s : ℕ) (es : List Event) (me : ClientView)
        → Leads (new_client s) es me
        → InOrder (sent_tasks es) 0 (received_answers es) }
    ensures drained { (s : ℕ) (es : List Event) (me : ClientView)
        → Leads (new_client s) (es ++ Returned Drained ∷ []) me
        → map (λ d. d.solved) (received_answers es) ≡ sent_tasks es }
    ensures known { (s : ℕ) (es : List Event) (me : ClientView)
        → Leads (new_client s) es me
        → (me.sent ≡ sent_tasks es) × (me.received ≡ length (received_answers es)) }
{}

/// A legal history of `n` senders leaves a `BoardView` of `n` senders that meets `IsBoardView`. The
/// `SenderView` of each sender there is what the steps and replies say: its accepted tasks, the
/// stage of each job, how many answers were delivered to it, and whether it was closed.
pub fn contents_are_of_histories()
    ensures senders { (n : ℕ) (ss : List Step) (rs : List Reply) → length (content n ss rs) ≡ n }
    ensures kept { (n : ℕ) (ss : List Step) (rs : List Reply)
        → IsLegal n ss rs → IsBoardView (content n ss rs) }
    ensures states { (n s : ℕ) (ss : List Step) (rs : List Reply) (state : SenderView)
        → IsLegal n ss rs → slice_get (content n ss rs) s ≡ Some state
        → IsStateOf s ss rs state }
{}

/// Let a legal history leave a `BoardView`. Later steps whose replies are lawful from that view on
/// continue the history to a legal one, which leaves what these steps make of the view.
pub fn histories_continue()
    ensures legal { (n : ℕ) (ss later : List Step) (rs replies : List Reply)
        → IsLegal n ss rs → AreLawful (content n ss rs) later replies
        → IsLegal n (ss ++ later) (rs ++ replies) }
    ensures content { (n : ℕ) (ss later : List Step) (rs replies : List Reply)
        → IsLegal n ss rs
        → content n (ss ++ later) (rs ++ replies) ≡ after_all (content n ss rs) later replies }
{}

/// Take any legal history, and a board whose view is the one that the history leaves. With the step
/// and the reply of any call of the board the history is legal again, and leaves the view that the
/// board has then; `is_done` says whether the history closes each sender and finishes all jobs. A
/// new board has the view that the empty history leaves. Each clause is about the call that it is
/// named after, and its premises are what the contract of this call ensures; `old` is the board's
/// view before the call, and `new` the one after it.
pub fn calls_continue_histories()
    ensures empty { (n : ℕ) → IsLegal n [] [] × (content n [] [] ≡ empty_content n) }
    ensures submit { (old new : BoardView) (s : ℕ) (t : TaskView) (r : Result ℕ SubmitFault)
        → Submits old s r → new ≡ after_submit old s t r
        → Continues old new (step.Submit s t) (reply.Submitted r) }
    ensures take { (old new : BoardView) (r : Option Job)
        → Takes old r → new ≡ after_take old r
        → Continues old new step.Take (reply.Took r) }
    ensures finish { (old new : BoardView) (id : JobId) (a : TaskView)
        → (r : Result (Unit {0}) JobFault)
        → Finishes old id a r → new ≡ after_finish old id a r
        → Continues old new (step.Finish id a) (reply.Finished r) }
    ensures give_back { (old new : BoardView) (id : JobId) (r : Result (Unit {0}) JobFault)
        → r ≡ give_back_reply old id → new ≡ after_give_back old id r
        → Continues old new (step.GiveBack id) (reply.GaveBack r) }
    ensures deliver { (old new : BoardView) (s : ℕ) (r : Handed)
        → r ≡ deliver_reply old s → new ≡ after_deliver old s r
        → Continues old new (step.Deliver s) (reply.Handed r) }
    ensures close { (old new : BoardView) (s : ℕ) (r : Result Bool NoSender)
        → r ≡ close_reply old s → new ≡ after_close old s r
        → Continues old new (step.Close s) (reply.Closed r) }
    ensures is_done { (n : ℕ) (ss : List Step) (rs : List Reply) → IsLegal n ss rs
        → AllDone (content n ss rs) ↔ HaveEnded n ss rs }
{}

/// The view of every board meets `IsBoardView`, and has at most `MOST_SENDERS` senders.
pub fn boards_have_contents(board: &Board)
    ensures content { IsBoardView board.now }
    ensures few { length board.now ≤ most_senders }
{
    // Reading a field makes the invariant of the type known here.
    let _ = &board.senders;
}

/// Each `BoardView` that meets `IsBoardView` is left by a legal history, its trace. By
/// `boards_have_contents` the view of every board meets it, and so does the view of the board that
/// a thread finds when it takes a desk's lock.
pub fn contents_have_histories()
    ensures legal { (c : BoardView)
        → IsBoardView c → IsLegal (length c) (trace_steps 0 c) (trace_replies 0 c) }
    ensures content { (c : BoardView)
        → IsBoardView c → content (length c) (trace_steps 0 c) (trace_replies 0 c) ≡ c }
{}

//! Questions of the client, as the server reads them.
ghost use Rattle.std.specs.Prelude.{◌≡◌, ◌↔◌, ℕ, length, true, IfOk};
ghost use Rattle.std.specs.Option.{option_copied};
ghost use Rattle.host_client.specs.Question.{is_question, ask_text};
ghost use Rattle.settings_machine.specs.Requests.{Request};
ghost use Rattle.api_http.specs.Requests.{Asks, Refuses, IfWhole, IfRefused};
ghost use Rattle.api_http.specs.declared.refusal.Refusal.{Refusal};
ghost use Rattle.client_requests.specs.Agreed.{SpellsQuestion, IsRefusedFor};

use api_http::{Reading, read_request};
use host_client::question_text;
use std::alloc::{AllocError, Global};

/// What the server reads where the client asks this question: the whole text is one request, or it is refused.
///
/// It is a request exactly where the method and the path of the target, up to its first `?`, are those of a row of
/// the server's table, and the query and the body spell a request of that row. It is refused as `NoPath`, `Method`,
/// `Query` or `Body` exactly where one of these is at fault, the first of them; never for its form, and never are
/// more bytes waited for. The only error is out of memory.
pub fn read_question(
    alloc: Global,
    method: &[u8],
    target: &[u8],
    body: Option<&[u8]>,
) -> Result<Reading, AllocError>
    requires { is_question method.now target.now (option_copied body) ≡ true }
    ensures asks { let text = ask_text method.now target.now (option_copied body.entry) in (q : Request) (n : ℕ)
        → Asks text q n ↔ (SpellsQuestion method.now target.now (option_copied body.entry) q × (n ≡ length text)) }
    ensures refuses { (r : Refusal) → Refuses (ask_text method.now target.now (option_copied body.entry)) r
        ↔ IsRefusedFor method.now target.now (option_copied body.entry) r }
    ensures whole { IfOk result (λ reading. IfWhole reading (λ q n.
        SpellsQuestion method.now target.now (option_copied body.entry) q
        × (n ≡ length (ask_text method.now target.now (option_copied body.entry))))) }
    ensures refused { IfOk result (λ reading. IfRefused reading (λ r.
        IsRefusedFor method.now target.now (option_copied body.entry) r)) }
    ensures one_of_them { IfOk result (λ reading. reading ≡ Reading.NotYet → ⊥) }
{
    let text = question_text(alloc, method, target, body)?;
    read_request(alloc, &text)
}

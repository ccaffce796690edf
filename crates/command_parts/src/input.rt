// Opening a text of any kind that commands read.
ghost use Rattle.std.specs.Prelude.{◌≡◌, ◌≢◌, List, ℕ, [], Err, IfErr, IfSome, IsErrAnd};
ghost use Rattle.text_base.specs.Reading.{IsRead};
ghost use Rattle.text_base.specs.Readers.{HasTaken, grammar_of, stopped_by};
ghost use Rattle.text_base.specs.Stopped.{IsFaultAnd, MatchStop};
ghost use Rattle.text_base.specs.declared.fault.TextFault.{TextFault};
ghost use Rattle.text_base.specs.declared.stop.Stop.TheVariants.{Memory};
ghost use Rattle.command_core.specs.InsideAnswer.{status_of};
ghost use Rattle.command_core.specs.SeveralFiles.{IsRefusedBy, ReadsFile, Says, itself};

use command_core::{Answer, Refusal, answered, missed, read};
use std::alloc::Global;
use text_base::{Desk, Grammar, Reader, Stop, TextFault};

/// A grammar of texts that commands read.
pub trait Source: Grammar {
    /// The line that tells a fault of a text, which is this file of its command.
    ghost told: { ℕ → TextFault Self.Reason → List ℕ };

    fn told(number: u32, fault: TextFault<Self::Reason>) -> Refusal
        ensures { result.line ≡ told number fault };
}

// What the text says that a reader was fed, or why it is refused; the text is this file of its
// command.
fn judged<G: Source>(reader: Reader<G>, number: u32) -> Result<G::Value, Stop<Refusal>>
    ensures says { (text : List ℕ)
        → HasTaken (G.rules (G.setting (grammar_of reader))) G.took reader text
        → Says itself (IsRead (G.rules (G.setting (grammar_of reader)))
        (G.says (G.setting (grammar_of reader))))
        (IsRefusedBy (G.rules (G.setting (grammar_of reader))) (G.told number)) text result }
    ensures kept { IfSome (stopped_by reader)
        (λ stop. MatchStop stop (λ fault. IsErrAnd result (λ told. IsFaultAnd told
        (λ refusal. refusal.line ≡ G.told number fault))) (result ≡ Err Memory)) }
{
    match reader.finish() {
        Ok(value) => Ok(value),
        Err(Stop::Fault(fault)) => Err(Stop::Fault(G::told(number, fault))),
        Err(Stop::Memory) => Err(Stop::Memory),
    }
}

/// What a text says by a grammar that has taken no lines, or the answer that ends the command; the
/// text is this file of its command.
pub fn open<D: Desk, G: Source>(
    alloc: Global,
    desk: &mut D,
    name: &str,
    number: u32,
    grammar: G,
) -> Result<G::Value, Answer>
    requires { G.took grammar [] }
    ensures reads { ReadsFile itself
        (IsRead (G.rules (G.setting grammar)) (G.says (G.setting grammar)))
        (IsRefusedBy (G.rules (G.setting grammar)) (G.told number)) name.now
        (D.meaning desk.old) (D.meaning desk.new) result }
    // The same by a setting that is equal to the grammar's.
    ensures reads_so { (s : G.Setting) → G.setting grammar ≡ s
        → ReadsFile itself (IsRead (G.rules s) (G.says s)) (IsRefusedBy (G.rules s) (G.told number))
        name.now (D.meaning desk.old) (D.meaning desk.new) result }
    ensures known { IfErr result (λ answer. status_of answer ≢ 3) }
{
    match read(alloc, desk, name, grammar) {
        Ok(reader) => {
            let found = judged(reader, number);
            answered(found)
        }
        Err(unread) => Err(missed(unread)),
    }
}

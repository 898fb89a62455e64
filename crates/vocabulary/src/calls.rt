// The five calls as one, with the law that they keep.
ghost use Rattle.std.specs.Prelude.{◌≡◌};
ghost use Rattle.vocabulary.specs.Calls.{called, EnteringLaw};
ghost use Rattle.vocabulary.specs.View.{model};

use crate::store::Vocabulary;
use formulas::calls::Call;
use formulas::refusals::Refusal;

impl Vocabulary {
    // The call by its definition; `enter` adds the law, which is proved of the five at once.
    fn dispatch(&mut self, call: Call) -> Result<u16, Refusal>
        ensures answer { result ≡ (called (model self.old) call).answer }
        ensures after { model self.new ≡ (called (model self.old) call).after }
    {
        // A call is data, which scripts write and the law speaks of: no closure could be written out or compared.
        match call {
            Call::NewCarrier => self.new_carrier(),
            Call::NewProduct(s, t) => self.product(s, t),
            Call::NewVariable(t) => self.new_variable(t),
            Call::NewSetName(t) => self.new_set_name(t),
            Call::EnterFormula(kind, a, b) => self.enter_formula(kind, a, b),
        }
    }

    pub fn enter(&mut self, call: Call) -> Result<u16, Refusal>
        ensures answer { result ≡ (called (model self.old) call).answer }
        ensures after { model self.new ≡ (called (model self.old) call).after }
        ensures law { EnteringLaw (model self.old) call result (model self.new) }
    {
        self.dispatch(call)
    }
}

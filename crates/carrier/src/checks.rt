// What is refused of what is asked, sizes apart: 2 to 5.
ghost use Rattle.std.specs.Prelude.{◌≡◌};
ghost use Rattle.carrier.specs.Asked.{asked_number};
ghost use Rattle.carrier.specs.InnerRefusals.{number_in};
ghost use Rattle.carrier.specs.InnerSteps.{asked_in};

use super::asked::Asked;
use super::refusal::Refusal;
use signatures::components;

impl Asked<'_> {
    // The refusal with the lowest number.
    pub fn check(&self) -> Result<(), Refusal>
        ensures { number_in result ≡ asked_number (asked_in self.now) }
    {
        let message = &self.message;
        let looked = message.look(self.names);
        let formed = components::good_message(
            message.method,
            message.authority,
            message.path,
            message.lines,
        ) & (components::all_components(self.names) & looked.printable);
        let named = structured::is_key(self.label) & structured::all_between(32, 126, self.key_id);
        if !formed {
            return Err(Refusal::Malformed);
        }
        if !named {
            return Err(Refusal::BadLabel);
        }
        if looked.twice {
            return Err(Refusal::ListedTwice);
        }
        if looked.missing {
            return Err(Refusal::MissingField);
        }
        Ok(())
    }
}

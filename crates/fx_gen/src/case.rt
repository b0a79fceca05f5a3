ghost use Rattle.std.specs.Prelude.{◌≡◌, ◌<◌, ◌≤◌, ◌*◌, ◌++◌, ◌∷◌, [], IfOk, OnOk};
ghost use Rattle.fx_gen.specs.Draws.{draws_after};
ghost use Rattle.fx_gen.specs.Notes.{nodes};
ghost use Rattle.fx_gen.specs.Scripts.{description, generated_scripts, generated_script, scripts_to, counting_of, logging_of};

use crate::draws::Draws;
use crate::files::store;
use crate::lines::{SCRIPTS, TXNS, script_text};
use fx_base::{Listed, NoMemory};
use fx_expr::Text;
use fx_store::Filestore;
use std::alloc::Global;

/// A big case: the text of a description, a filestore, and the texts of eight scripts of 200 transactions each, of which
/// so many count and so many log.
#[derive(Drop)]
pub struct Generated {
    /// The text of the description.
    pub description: Text,
    pub store: Filestore,
    /// The texts of the scripts, in the order of their numbers.
    pub scripts: Listed<Text>,
    /// The number of transactions that count.
    pub counted: u32,
    /// The number of transactions that log.
    pub logged: u32,
}

impl Generated {
    /// The filestore alone.
    pub fn into_store(self) -> Filestore
        ensures { result ≡ self.store }
    {
        self.store
    }

    /// Lets go of the case.
    pub fn let_go(self) {}
}

/// The case of a number, always the same.
pub fn generate(alloc: Global, number: u32) -> Result<Generated, NoMemory>
    ensures description { IfOk result (λ case. case.description ≡ description) }
    ensures store { IfOk result (λ case. case.store.nodes ≡ nodes number) }
    ensures scripts { IfOk result (λ case. case.scripts ≡ generated_scripts number) }
    ensures counted { IfOk result (λ case. case.counted ≡ counting_of number 1600) }
    ensures logged { IfOk result (λ case. case.logged ≡ logging_of number 1600) }
{
    let mut draws = Draws::new(number);
    let store = store(alloc, &mut draws)?;
    let mut logged = 0;
    let scripts = script_texts(alloc, &mut draws, &mut logged)?;
    Ok(Generated {
        description: description(alloc)?,
        store,
        scripts,
        counted: SCRIPTS * TXNS - logged,
        logged,
    })
}

/// The text of the description.
fn description(alloc: Global) -> Result<Text, NoMemory>
    ensures { IfOk result (λ text. text ≡ description) }
{
    let line =
        b"<c : (\"config\" :: file), <t : {(p :: <n : (\"count\" :: file), <l : (\"log\" :: dir), (\"notes\" :: dir)>>) | p in lines(c)}, (\"current\" :: link)>>\n";
    Ok(Text::from_vec(Vec::from_slice(alloc, line.as_slice())?))
}

/// The texts of the scripts. It counts the transactions that log.
fn script_texts(
    alloc: Global,
    draws: &mut Draws,
    logging: &mut u32,
) -> Result<Listed<Text>, NoMemory>
    requires made { draws.old.made ≡ 257 }
    requires logging { logging.old ≡ 0 }
    ensures texts { IfOk result (λ texts. texts ≡ scripts_to draws.old.number SCRIPTS) }
    ensures few { OnOk result (logging.new ≤ SCRIPTS * TXNS) }
    ensures logging { OnOk result (logging.new ≡ logging_of draws.old.number (SCRIPTS * TXNS)) }
{
    let mut texts = Listed::new(alloc);
    for script in 0..SCRIPTS {
        let text = script_text(alloc, draws, script, logging)?;
        texts.push(Text::from_vec(text))?;
    }
    Ok(texts)
}

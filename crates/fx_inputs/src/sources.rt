//! The texts of the scripts, read from the host.
ghost use Rattle.std.specs.Prelude.{IfSome, length};
ghost use Rattle.fx_outside.specs.Host.{ReadsOnly};
ghost use Rattle.fx_words.specs.JobOf.{asked_inputs, AreInputs};
ghost use Rattle.fx_inputs.specs.Reads.{AsksAtAll};
ghost use Rattle.fx_inputs.specs.ReadTexts.{AreScriptTexts, StopsFor};

use fx_base::SOURCE_LIMIT;
use fx_command::{Source, read_text};
use fx_outside::{Host, HostFault};
use fx_words::Inputs;
use std::alloc::Global;

/// The texts of the scripts from the first on, and why the one behind them is not read; none where they are all.
#[derive(Drop)]
pub(crate) struct Sources {
    pub texts: Vec<Source>,
    pub stop: Option<HostFault>,
}

/// Reads the texts of the scripts, in order, up to the first that is not read.
pub(crate) fn read_sources<H: Host>(alloc: Global, inputs: &Inputs, host: &mut H) -> Sources
    requires { AreInputs inputs.now }
    ensures texts { IfSome (H.view host.old).told
        (λ t. AreScriptTexts t (asked_inputs inputs.now).scripts result.texts.items) }
    ensures stop { StopsFor (asked_inputs inputs.now).scripts
        (H.view host.old) (H.view host.new) (length result.texts.items) result.stop }
    ensures same { ReadsOnly (H.view host.old) (H.view host.new) }
    ensures fit { AsksAtAll (asked_inputs inputs.now).scripts
        (H.view host.old) (H.view host.new) }
{
    let mut texts = Vec::new(alloc);
    'scripts: for i in 0..inputs.scripts() {
        let path = match inputs.script(i) {
            Some(path) => path,
            None => unreachable!(),
        };
        let text = match read_text(alloc, host, path, SOURCE_LIMIT as u64) {
            Ok(text) => text,
            Err(fault) => {
                return Sources {
                    texts,
                    stop: Some(fault),
                };
            }
        };
        match texts.push(Source::new(text)) {
            Ok(()) => {}
            Err(_) => {
                return Sources {
                    texts,
                    stop: Some(HostFault::NoMemory),
                };
            }
        }
    }
    Sources { texts, stop: None }
}

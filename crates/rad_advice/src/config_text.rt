//! The text of a configuration, read as TOML once.

ghost use Rattle.std.specs.Prelude.{◌≡◌, Some, IfErr, IfOk, IsUtf8};
ghost use Rattle.std.specs.Str.Lossy.{utf8_valid_len};
ghost use Rattle.toml.specs.Parse.{parse_document};
ghost use Rattle.toml.specs.View.{table_view};
ghost use Rattle.rad_realms.specs.Gives.{Gives};
ghost use Rattle.rad_realms.specs.Walk.{configuration_in};
ghost use Rattle.rad_advice.specs.Place.{place_at};
ghost use Rattle.rad_advice.specs.Syntax.{IfNoToml, IsPlaceIn, IsToml};

use crate::place::place_of;
use crate::syntax::SyntaxError;
use rad_realms::{Config, ConfigFault, read_document};
use std::alloc::{AllocError, Global};
use std::marker::Model;
use toml::Table;

/// The text of a configuration, which is TOML, and its document. All reports on the text are made of it.
#[derive(Drop)]
pub struct ConfigText<'t> {
    text: &'t str,
    document: Table,
}

/// Why octets are no such text.
#[derive(Drop)]
pub enum TextFault {
    /// They are not TOML.
    NoToml(SyntaxError),
    OutOfMemory,
}

impl From<AllocError> for TextFault {
    ghost use Rattle.std.specs.Prelude.{◌≡◌};
    ghost use Rattle.rad_advice.specs.declared.config_text.TextFault.TheVariants.{OutOfMemory};

    ghost from_gives = { λ _ fault. fault ≡ OutOfMemory };

    fn from(_error: AllocError) -> TextFault {
        TextFault::OutOfMemory
    }
}

impl<'t> Model for ConfigText<'t> {
    ghost use Rattle.std.specs.Prelude.{◌≡◌, ℕ, List, Some};
    ghost use Rattle.toml.specs.Parse.{parse_document};
    ghost use Rattle.toml.specs.View.{table_view};

    ghost Value = { List ℕ };

    ghost view = { λ t. t.text.now };

    ghost invariant = { λ t. parse_document t.text.now ≡ Some (table_view t.document) };
}

impl<'t> ConfigText<'t> {
    /// Reads octets as the text of a configuration.
    ///
    /// # Errors
    ///
    /// `NoToml` if they are not UTF-8, or not TOML; `OutOfMemory` if memory is refused.
    pub fn read(alloc: Global, octets: &'t [u8]) -> Result<ConfigText<'t>, TextFault>
        ensures text { IfOk result (λ text. IsToml octets.now × (text ≡ octets.now)) }
        ensures toml { IfErr result (λ fault. IfNoToml fault (λ _. ¬ IsToml octets.now)) }
        ensures place { IfErr result (λ fault. IfNoToml fault (λ error. IsPlaceIn octets.now error.place)) }
        ensures utf8 { ¬ IsUtf8 octets.now → IfErr result (λ fault. IfNoToml fault (λ error. error.place ≡ place_at (utf8_valid_len octets.now) octets.now)) }
    {
        let text = match std::str::from_utf8(octets) {
            Ok(text) => text,
            Err(fault) => {
                let place = place_of(octets, fault.valid_up_to());
                let message = String::from_str(alloc, "no UTF-8")?;
                return Err(TextFault::NoToml(SyntaxError { place, message }));
            }
        };
        let fault = match toml::table_from_str(alloc, text) {
            Ok(document) => return Ok(ConfigText { text, document }),
            Err(fault) => fault,
        };
        let Some(span) = fault.span() else {
            return Err(TextFault::OutOfMemory);
        };
        let place = place_of(text.as_bytes(), span.start);
        let message = String::from_str(alloc, fault.message())?;
        Err(TextFault::NoToml(SyntaxError { place, message }))
    }

    /// Returns the text.
    pub fn as_str(&self) -> &'t str
        ensures { result.now ≡ self.now }
    {
        self.text
    }

    /// Reads the configuration of its document, which is what `read_config` makes of the text.
    ///
    /// # Errors
    ///
    /// The first fault of the document. `OutOfMemory` may come at any point.
    #[tactic(auto, unfolding(rad_config::specs::Walk::configuration_in))]
    pub fn configuration(&self, alloc: Global) -> Result<Config, ConfigFault>
        ensures { Gives result (configuration_in self.now) }
    {
        let _ = &self.text;
        read_document(alloc, &self.document)
    }

    /// Returns its document.
    pub fn document(&self) -> &Table
        ensures { parse_document self.now ≡ Some (table_view result.now) }
    {
        &self.document
    }
}

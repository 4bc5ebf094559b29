//! Samples: a value under a name, with its labels, which say whose it is, and by what else it differs from the others of
//! its name.

ghost use Rattle.std.specs.Prelude.{◌≡◌, ◌++◌};
ghost use Rattle.rad_metrics.specs.Samples.{reason_key, labels_text, others_label};

use crate::histogram::bound_label;
use crate::reason::Reason;
use crate::value::Value;
use rad_log::Escaped;
use rad_realms::{AddressText, Endpoint};
use std::fmt;

/// A label of a sample.
#[derive(Clone, Copy)]
pub enum Label<'a> {
    /// The version of the program.
    Version(&'a str),
    /// The clients' side.
    Clients,
    /// A client, by its address.
    Client([u8; 4]),
    /// A lane, and its home server's name. These are two labels.
    Home(usize, &'a str),
    /// A realm, by its name, which is printed as in a line of the log, and `\` as `%5c` too: so it needs no other escapes.
    Realm(&'a str),
    /// All realms that are in no row of the table.
    OtherRealms,
    /// Why, or what is repeated.
    Reason(Reason),
    /// The bound of this bucket, in seconds.
    Bound(usize),
    /// The index of a socket among those of its lane.
    Port(usize),
    /// The address and port to which a socket is bound.
    Socket(Endpoint),
}

/// The labels of a sample: its owner's, and another one.
#[derive(Clone, Copy)]
pub struct Labels<'a>(pub Option<Label<'a>>, pub Option<Label<'a>>);

/// The labels of a lane: its number, and its home server's name.
#[derive(Clone, Copy)]
struct HomeLabels<'a>(usize, &'a str);

impl fmt::Display for HomeLabels<'_> {
    ghost use Rattle.std.specs.Prelude.{Some};
    ghost use Rattle.rad_metrics.specs.Samples.{home_labels};

    ghost output = { λ labels. Some (home_labels labels.0 labels.1.now) };

    #[tactic(auto, unfolding(crate::specs::Samples::home_labels))]
    fn fmt<W: fmt::Write>(&self, f: &mut fmt::Formatter<W>) -> fmt::Result {
        let HomeLabels(lane, home) = *self;
        write!(f, "lane=\"{lane}\",home=\"{home}\"")
    }
}

impl fmt::Display for Label<'_> {
    ghost use Rattle.std.specs.Prelude.{Some};
    ghost use Rattle.rad_metrics.specs.Samples.{label_text};

    ghost output = { λ label. Some (label_text label) };

    fn fmt<W: fmt::Write>(&self, f: &mut fmt::Formatter<W>) -> fmt::Result {
        match *self {
            Label::Version(version) => write!(f, "version=\"{version}\""),
            Label::Clients => f.write_str("side=\"clients\""),
            Label::Client(address) => {
                let address = AddressText(address);
                write!(f, "client=\"{address}\"")
            }
            Label::Home(lane, home) => HomeLabels(lane, home).fmt(f),
            Label::Realm(name) => {
                let name = Escaped {
                    octets: name.as_bytes(),
                    also: Some(b'\\'),
                };
                write!(f, "realm=\"{name}\"")
            }
            Label::OtherRealms => f.write_str("realm=\"@other\""),
            Label::Reason(reason) => {
                let key = key_of(reason);
                let name = reason.name();
                write!(f, "{key}=\"{name}\"")
            }
            Label::Bound(bucket) => {
                let bound = bound_label(bucket);
                write!(f, "le=\"{bound}\"")
            }
            Label::Port(place) => write!(f, "port=\"{place}\""),
            Label::Socket(at) => write!(f, "socket=\"{at}\""),
        }
    }
}

fn key_of(reason: Reason) -> &'static str
    ensures { result.now ≡ reason_key reason }
{
    match reason {
        Reason::Repeat(_) => "repeat",
        _ => "reason",
    }
}

/// Returns the label of all realms that are in no row of the table, if they lead to a lane.
pub(crate) fn label_of_others<'a>(lane: Option<u16>) -> Option<Label<'a>>
    ensures { result ≡ others_label lane }
{
    match lane {
        Some(_) => Some(Label::OtherRealms),
        None => None,
    }
}

impl fmt::Display for Labels<'_> {
    ghost use Rattle.std.specs.Prelude.{Some};
    ghost use Rattle.rad_metrics.specs.Samples.{labels_text};

    ghost output = { λ labels. Some (labels_text labels.0 labels.1) };

    fn fmt<W: fmt::Write>(&self, f: &mut fmt::Formatter<W>) -> fmt::Result {
        match *self {
            Labels(None, None) => Ok(()),
            Labels(Some(label), None) | Labels(None, Some(label)) => write!(f, "{{{label}}}"),
            Labels(Some(owner), Some(label)) => write!(f, "{{{owner},{label}}}"),
        }
    }
}

/// A value under a name. It is printed as a line.
#[derive(Clone, Copy)]
pub struct Sample<'a> {
    /// The name after the prefix `rad_proxy_`, without the suffix.
    pub name: &'static str,
    /// What follows the name of a family of histograms.
    pub suffix: &'static str,
    pub labels: Labels<'a>,
    pub value: Value,
}

impl fmt::Display for Sample<'_> {
    ghost use Rattle.std.specs.Prelude.{Some};
    ghost use Rattle.rad_metrics.specs.Samples.{sample_text};

    ghost output = { λ sample. Some (sample_text (sample.name.now ++ sample.suffix.now) (labels_text sample.labels.0 sample.labels.1) sample.value) };

    fn fmt<W: fmt::Write>(&self, f: &mut fmt::Formatter<W>) -> fmt::Result {
        let Sample {
            name,
            suffix,
            labels,
            value,
        } = *self;
        write!(f, "rad_proxy_{name}{suffix}{labels} {value}\n")
    }
}

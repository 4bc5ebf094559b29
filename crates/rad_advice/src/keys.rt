//! The keys of a configuration that are read, by part.

ghost use Rattle.std.specs.Prelude.{◌≡◌, map};
ghost use Rattle.rad_advice.specs.Keys.{read_names, is_one_of};

use rad_realms::Part;

pub(crate) fn names_of(part: Part) -> &'static [&'static str]
    ensures { map (λ name. name.now) result.now ≡ read_names part }
{
    match part {
        Part::Top => &[
            "listen",
            "default_home",
            "other_home",
            "linger",
            "client",
            "home",
            "realm",
        ],
        Part::Client => &["address", "secret"],
        Part::Home => {
            &[
                "name",
                "address",
                "secret",
                "window",
                "queue",
                "book",
                "tries",
                "first_wait",
                "probe_every",
                "down_wait",
                "span",
                "ring",
                "ports",
            ]
        }
        Part::Realm => &["name", "home"],
    }
}

pub(crate) fn is_read(part: Part, name: &str) -> bool
    ensures { result ≡ is_one_of (read_names part) name.now }
{
    names_of(part).contains(&name)
}

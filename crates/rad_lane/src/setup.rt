ghost use Rattle.std.specs.Arc.{arc_value};
ghost use Rattle.std.specs.Prelude.{◌≡◌, Some, None, IfOk, option_map, if◌then◌else◌};
ghost use Rattle.rad_realms.specs.Realm.{same_name, is_at, realms_of as the_realms};
ghost use Rattle.rad_lane.specs.Setup.{is_lane, is_among};

use crate::Series;
use rad_auth::{Octets, Secret};
use rad_realms::{Config, Limits, Realm, Realms};
use std::alloc::{AllocError, Global};
use std::marker::Model;
use std::sync::Arc;

/// What a lane is set up with: the number of its home server, that server's secret and limits, the realms that lead
/// to it, whether all other realms do, and whether requests without a realm do.
#[derive(Drop)]
pub struct Setup {
    /// The number of its home server, counted from 0 in the order of the configuration.
    lane: u16,
    /// The home server's secret.
    home: Secret,
    /// The limits in the home server's section of the configuration. The number of source ports is one of them.
    limits: Limits,
    /// The names of the realms of the table that lead to the lane.
    realms: Series<Octets>,
    /// The table, if the realms that are in no row of it lead to the lane.
    unlisted: Option<Arc<Realms>>,
    /// Whether requests without a realm lead to the lane.
    is_default: bool,
}

impl Model for Setup {
    ghost use Rattle.std.specs.Prelude.{option_map};
    ghost use Rattle.std.specs.Arc.{arc_value};
    ghost use Rattle.rad_lane.specs.Setup.{LaneSetup};

    ghost Value = { LaneSetup };

    ghost view = { λ s. record { lane = s.lane; ports = s.limits.ports; home_secret = s.home; limits = s.limits; realms = s.realms; unlisted = option_map (λ t. arc_value t) s.unlisted; is_default = s.is_default } };
}

impl Setup {
    ghost use Rattle.std.specs.Prelude.{◌≡◌, ◌≤◌, ◌<◌, ◌↔◌, ◌||◌, length, IfOk, IsTrue};
    ghost use Rattle.std.specs.Option.{option_copied};
    ghost use Rattle.rad_lane.specs.Setup.{IsSetUp, is_among, is_beside, LeadsHere};

    /// Returns the setup of the lane of home server `lane` by the configuration. It looks at each realm once.
    ///
    /// # Errors
    ///
    /// `AllocError` if memory is refused, or if too many share the table of the realms.
    pub fn of(alloc: Global, config: &Config, lane: u16) -> Result<Setup, AllocError>
        requires { lane < length config.now.homes }
        ensures { IfOk result (λ setup. IsSetUp config.now lane setup) }
    {
        let home = &config.homes()[usize::from(lane)];
        Ok(Setup {
            lane,
            home: *home.secret(),
            limits: home.limits(),
            realms: realms_of(alloc, config.realms(), lane)?,
            unlisted: unlisted_of(config, lane)?,
            is_default: is_same_lane(lane, config.lane_of(None)),
        })
    }

    /// Returns whether requests of this realm, or of none, lead to this lane. The realm is compared with the one of
    /// this rank among the lane's realms, and then, at the lane of all other realms, looked for in the table. Only if
    /// neither tells, as is possible for a request that was checked against another configuration, is it compared with
    /// each of the lane's.
    pub(crate) fn leads_here(&self, realm: Option<&[u8]>, rank: Option<usize>) -> bool
        ensures { IsTrue result ↔ LeadsHere self.now (option_copied realm.entry) }
    {
        match realm {
            None => self.is_default,
            Some(name) => !name.is_empty() && self.takes_realm(name, rank),
        }
    }

    fn takes_realm(&self, name: &[u8], rank: Option<usize>) -> bool
        ensures { result ≡ (is_among self.now.realms name.now || is_beside self.now.unlisted name.now) }
    {
        let names = self.realms.as_slice();
        has_name_at(names, rank, name) || self.takes_unlisted(name) || has_name(names, name)
    }

    fn takes_unlisted(&self, name: &[u8]) -> bool
        ensures { result ≡ is_beside self.now.unlisted name.now }
    {
        match &self.unlisted {
            Some(realms) => !realms.has(name),
            None => false,
        }
    }

    /// Returns the lane's number: the place of its home server in the configuration, counted from 0.
    pub fn lane(&self) -> u16
        ensures { result ≡ self.now.lane }
    {
        self.lane
    }

    /// Returns the number of source ports.
    pub(crate) fn ports(&self) -> u16
        ensures value { result ≡ self.now.ports }
        ensures least { 1 ≤ self.now.ports }
        ensures most { self.now.ports ≤ 4 }
    {
        self.limits.numbers().ports as u16
    }

    pub(crate) fn home(&self) -> &Secret
        ensures { result.now ≡ self.now.home_secret }
    {
        &self.home
    }

    /// Returns the limits in the home server's section of the configuration. The number of source ports is one of
    /// them.
    pub fn limits(&self) -> &Limits
        ensures value { result.now ≡ self.now.limits }
        ensures ports { self.now.ports ≡ self.now.limits.ports }
    {
        &self.limits
    }
}

fn realms_of(alloc: Global, realms: &[Realm], lane: u16) -> Result<Series<Octets>, AllocError>
    ensures { IfOk result (λ names. names ≡ the_realms realms.now lane) }
{
    let mut names = Vec::new(alloc);
    for realm in realms {
        if realm.lane() == lane {
            let name = Octets::copy_of(alloc, realm.name().as_bytes())?;
            names.push(name)?;
        }
    }
    Ok(Series::from_vec(names))
}

fn unlisted_of(config: &Config, lane: u16) -> Result<Option<Arc<Realms>>, AllocError>
    ensures { IfOk result (λ table. option_map (λ t. arc_value t) table ≡ (if is_lane lane config.now.other_lane then Some config.now.realms else None)) }
{
    if is_same_lane(lane, config.other_lane()) {
        Ok(Some(config.share_realms()?))
    } else {
        Ok(None)
    }
}

fn is_same_lane(lane: u16, other: Option<u16>) -> bool
    ensures { result ≡ is_lane lane other }
{
    match other {
        Some(other) => other == lane,
        None => false,
    }
}

fn has_name(names: &[Octets], name: &[u8]) -> bool
    ensures { result ≡ is_among names.now name.now }
{
    names
        .iter()
        .any(|other| is_same_name(other.as_slice(), name))
}

fn has_name_at(names: &[Octets], rank: Option<usize>, name: &[u8]) -> bool
    ensures { result ≡ is_at (λ other. same_name other name.now) names.now rank }
{
    let Some(place) = rank else {
        return false;
    };
    match names.get(place) {
        Some(other) => is_same_name(other.as_slice(), name),
        None => false,
    }
}

/// For the proof: returns whether two names are the same, ignoring the case of ASCII letters.
fn is_same_name(one: &[u8], other: &[u8]) -> bool
    ensures { result ≡ same_name one.now other.now }
{
    one.eq_ignore_ascii_case(other)
}

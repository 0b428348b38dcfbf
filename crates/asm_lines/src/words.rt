// The words that have a meaning from the start: the names of the services and of the settings.

ghost use Rattle.std.specs.Prelude.{◌≡◌, ◌≤◌, map};
ghost use Rattle.asm_lines.specs.Tables.{row_of};
ghost use Rattle.asm_lines.specs.Words.{key_of, keys, service_number, service_numbered};

use crate::tables::entry;
use app_image::ConfigKey;
use kern_base::Service;

static KEYS: [(&[u8], ConfigKey); 10] = [
    (b"isr_limit", ConfigKey::IsrLimit),
    (b"defer_size", ConfigKey::DeferSize),
    (b"pool", ConfigKey::Pool),
    (b"tmr_div", ConfigKey::TmrDiv),
    (b"round_robin", ConfigKey::RoundRobin),
    (b"quanta", ConfigKey::Quanta),
    (b"tick_prio", ConfigKey::TickPrio),
    (b"tmr_prio", ConfigKey::TmrPrio),
    (b"tmr_sp", ConfigKey::TmrSp),
    (b"insert", ConfigKey::Insert),
];

/// The settings by name, in the order of their places.
pub fn settings() -> &'static [(&'static [u8], ConfigKey)]
    ensures { map row_of result.now ≡ keys }
{
    &KEYS
}

/// The setting that has this name.
pub fn key_of(name: &[u8]) -> Option<ConfigKey>
    ensures { result ≡ key_of name.now }
{
    entry(name, &KEYS)
}

// The number, from 1 to `last`, of the service that has this name.
fn service_numbered(last: u8, name: &[u8]) -> Option<u8>
    ensures { result ≡ service_numbered last name.now }
{
    let mut number = last;
    while number > 0 {
        if Service::of(u32::from(number)).text().as_bytes() == name {
            return Some(number);
        }
        number -= 1;
    }
    None
}

/// The number of the service that has this name, 1 to 39.
#[tactic(auto, unfolding(crate::specs::Words::service_number))]
pub fn service_number(name: &[u8]) -> Option<u8>
    ensures { result ≡ service_number name.now }
{
    service_numbered(39, name)
}

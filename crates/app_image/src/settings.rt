// The settings of an application.

ghost use Rattle.std.specs.Prelude.{◌≡◌};
ghost use Rattle.app_image.specs.Settings.{key_number, default_of, setting, config_of};

/// The name of a setting.
#[derive(Clone, Copy, Debug, PartialEq, Eq)]
pub enum ConfigKey {
    IsrLimit,
    DeferSize,
    Pool,
    TmrDiv,
    RoundRobin,
    Quanta,
    TickPrio,
    TmrPrio,
    TmrSp,
    Insert,
}

impl ConfigKey {
    // The place of the key among the ten.
    pub(crate) fn number(self) -> u8
        ensures { result ≡ key_number self }
    {
        match self {
            ConfigKey::IsrLimit => 0,
            ConfigKey::DeferSize => 1,
            ConfigKey::Pool => 2,
            ConfigKey::TmrDiv => 3,
            ConfigKey::RoundRobin => 4,
            ConfigKey::Quanta => 5,
            ConfigKey::TickPrio => 6,
            ConfigKey::TmrPrio => 7,
            ConfigKey::TmrSp => 8,
            ConfigKey::Insert => 9,
        }
    }

    // Its value where none is given.
    fn default_value(self) -> u32
        ensures { result ≡ default_of self }
    {
        match self {
            ConfigKey::IsrLimit => 256,
            ConfigKey::DeferSize => 16,
            ConfigKey::Pool => 64,
            ConfigKey::TmrDiv => 10,
            ConfigKey::RoundRobin => 1,
            ConfigKey::Quanta => 10,
            ConfigKey::TickPrio => 1,
            ConfigKey::TmrPrio => 62,
            ConfigKey::TmrSp => 0x14_0000,
            ConfigKey::Insert => 0,
        }
    }
}

/// A setting that a case gives.
#[derive(Clone, Copy)]
pub struct ConfigLine {
    pub key: ConfigKey,
    pub value: u32,
    /// The line that gives it; 0 in a binary image.
    pub line: u32,
}

/// The settings, with the default where a case gives none.
#[derive(Clone, Copy)]
pub struct Config {
    /// How many instructions an interrupt frame may run, 1 to 4,096. Default 256.
    pub isr_limit: u32,
    /// The size of the deferred queue in posts, 2 to 256. Default 16.
    pub defer_size: u32,
    /// The number of messages in the pool, 0 to 1,024. Default 64.
    pub pool: u32,
    /// How many ticks make one timer signal, 1 to 1,000. Default 10.
    pub tmr_div: u32,
    /// 1 where round robin is on, else 0. Default 1.
    pub round_robin: u32,
    /// The default quantum in ticks, 1 to 65,535. Default 10.
    pub quanta: u32,
    /// The priority of the tick task, 1 to 62. Default 1.
    pub tick_prio: u32,
    /// The priority of the timer task, 1 to 62. Default 62.
    pub tmr_prio: u32,
    /// The stack pointer of timer callbacks. Default 0x140000.
    pub tmr_sp: u32,
    /// 1 where a deferred post readies tasks with the handler's priority 0, else 0. Default 0.
    pub insert: u32,
}

fn setting(key: ConfigKey, lines: &[ConfigLine]) -> u32
    ensures { result ≡ setting key lines.now }
{
    for line in lines {
        if line.key.number() == key.number() {
            return line.value;
        }
    }
    key.default_value()
}

/// The settings that the lines give, the first of each key, and the default of each other.
pub fn config_of(lines: &[ConfigLine]) -> Config
    ensures { result ≡ config_of lines.now }
{
    Config {
        isr_limit: setting(ConfigKey::IsrLimit, lines),
        defer_size: setting(ConfigKey::DeferSize, lines),
        pool: setting(ConfigKey::Pool, lines),
        tmr_div: setting(ConfigKey::TmrDiv, lines),
        round_robin: setting(ConfigKey::RoundRobin, lines),
        quanta: setting(ConfigKey::Quanta, lines),
        tick_prio: setting(ConfigKey::TickPrio, lines),
        tmr_prio: setting(ConfigKey::TmrPrio, lines),
        tmr_sp: setting(ConfigKey::TmrSp, lines),
        insert: setting(ConfigKey::Insert, lines),
    }
}

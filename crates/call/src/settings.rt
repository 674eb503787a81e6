// The settings of a group call.
ghost use Rattle.std.specs.Prelude.{◌≡◌, false, MatchResult};
ghost use Rattle.call.specs.Settings.{settings_in_limits};
ghost use Rattle.call.specs.declared.answer.Refusal.TheVariants.{Setting};

use super::answer::Refusal;
use super::opening::SettingNumbers;
use mobile::MobileTimers;
use station::StationTimers;
use timing::{Period, Timer};

#[derive(Clone, Copy)]
pub struct Settings {
    pub period: Period,
    pub t3128: Timer,
    pub t3130: Timer,
    pub link: Timer,
}

// Refused where one of them is outside its limits.
impl TryFrom<SettingNumbers> for Settings {
    type Error = Refusal;

    ghost try_from_gives = { λ numbers made. MatchResult made (λ s. (s.period.ms ≡ numbers.period) × (s.t3128.ms ≡ numbers.t3128) × (s.t3130.ms ≡ numbers.t3130) × (s.link.ms ≡ numbers.link)) (λ refusal. (refusal ≡ Setting) × (settings_in_limits numbers.period numbers.t3128 numbers.t3130 numbers.link ≡ false)) };

    fn try_from(numbers: SettingNumbers) -> Result<Settings, Refusal> {
        let period = Period::new(numbers.period).ok_or(Refusal::Setting)?;
        let t3128 = Timer::new(numbers.t3128).ok_or(Refusal::Setting)?;
        let t3130 = Timer::new(numbers.t3130).ok_or(Refusal::Setting)?;
        let link = Timer::new(numbers.link).ok_or(Refusal::Setting)?;
        Ok(Settings {
            period,
            t3128,
            t3130,
            link,
        })
    }
}

impl Settings {
    pub fn mobile_timers(&self) -> MobileTimers
        ensures { (result.t3128 ≡ self.now.t3128) × (result.t3130 ≡ self.now.t3130) × (result.link ≡ self.now.link) }
    {
        MobileTimers {
            t3128: self.t3128,
            t3130: self.t3130,
            link: self.link,
        }
    }

    pub fn station_timers(&self) -> StationTimers
        ensures { (result.link ≡ self.now.link) × (result.period ≡ self.now.period) }
    {
        let link = self.link;
        StationTimers {
            link,
            period: self.period,
        }
    }
}

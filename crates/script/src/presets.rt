// The timers of the sheets: data addresses, TIFR bits, pins of the package, PRR1:PRR0, and the sleep modes in which the timer
// keeps counting.

ghost use Rattle.std.specs.Prelude.{◌≡◌};
ghost use Rattle.script.specs.Presets.{preset_of, preset_text, preset_keys};

use config_keys::Keys;
use m328p::{timer0, timer1, timer2};
use words::{Unreadable, place};

// The place of a preset's name in their list.
#[tactic(auto, unfolding(figures::specs::Figures::codes))]
pub fn preset(word: &[u8]) -> Option<usize>
    ensures { result ≡ preset_of word.now }
{
    place(
        b"m328p.timer0 m328p.timer1 m328p.timer2 m2560.timer1 m2560.timer3 m2560.timer4 m2560.timer5 m8.timer0 m16.timer0 m16.timer1",
        word,
    )
}

// A timer of the ATmega2560, on the 100-pin TQFP, or of the ATmega8 or the ATmega16, by its keys.
#[tactic(auto, unfolding(crate::specs::Presets::preset_text, figures::specs::Figures::codes))]
fn text(preset: usize) -> &'static [u8]
    ensures { result.now ≡ preset_text preset }
{
    match preset {
        3 =>
            b"id=1 wide=1 layout=split tccra=80 tccrb=81 foc=82 foca=80 focb=40 tcnt=84 ocra=88 ocrb=8A icr=86 tov=1 ocfa=2 ocfb=4 icf=20 pina=24 pinb=25 c=8C:8:26:20 icp=47 t=49 clock=sync group=1 prr=8 sleeprun=0",
        4 =>
            b"id=3 wide=1 layout=split tccra=90 tccrb=91 foc=92 foca=80 focb=40 tcnt=94 ocra=98 ocrb=9A icr=96 tov=1 ocfa=2 ocfb=4 icf=20 pina=5 pinb=6 c=9C:8:7:20 icp=9 t=8 clock=sync group=1 prr=800 sleeprun=0",
        5 =>
            b"id=4 wide=1 layout=split tccra=A0 tccrb=A1 foc=A2 foca=80 focb=40 tcnt=A4 ocra=A8 ocrb=AA icr=A6 tov=1 ocfa=2 ocfb=4 icf=20 pina=15 pinb=16 c=AC:8:17:20 icp=35 t=27 clock=sync group=1 prr=1000 sleeprun=0",
        6 =>
            b"id=5 wide=1 layout=split tccra=120 tccrb=121 foc=122 foca=80 focb=40 tcnt=124 ocra=128 ocrb=12A icr=126 tov=1 ocfa=2 ocfb=4 icf=20 pina=38 pinb=39 c=12C:8:40:20 icp=36 t=37 clock=sync group=1 prr=2000 sleeprun=0",
        7 =>
            b"id=0 wide=0 layout=single0 tccra=53 tccrb=53 foc=53 foca=0 focb=0 tcnt=52 ocra=- ocrb=- icr=- tov=1 ocfa=0 ocfb=0 icf=0 pina=- pinb=- c=- icp=- t=6 clock=sync group=1 prr=0 sleeprun=0",
        8 =>
            b"id=0 wide=0 layout=single tccra=53 tccrb=53 foc=53 foca=80 focb=0 tcnt=52 ocra=5C ocrb=- icr=- tov=1 ocfa=2 ocfb=0 icf=0 pina=4 pinb=- c=- icp=- t=1 clock=sync group=1 prr=0 sleeprun=0",
        _ =>
            b"id=1 wide=1 layout=split tccra=4F tccrb=4E foc=4F foca=8 focb=4 tcnt=4C ocra=4A ocrb=48 icr=46 tov=4 ocfa=10 ocfb=8 icf=20 pina=19 pinb=18 c=- icp=20 t=2 clock=sync group=1 prr=0 sleeprun=0",
    }
}

// The keys of the preset at a place.
#[tactic(auto, unfolding(crate::specs::Presets::preset_keys))]
pub fn keys(preset: usize) -> Result<Keys, Unreadable>
    ensures { result ≡ preset_keys preset }
{
    match preset {
        0 => Ok(Keys::saying(timer0())),
        1 => Ok(Keys::saying(timer1())),
        2 => Ok(Keys::saying(timer2())),
        _ => Keys::of(text(preset), 0),
    }
}

//! The theorems of a record's history and certificates.

ghost use Rattle.std.specs.Prelude.{ℕ, List};
ghost use Rattle.model.specs.declared.Kind.{Kind};
ghost use Rattle.desk_model.specs.World.{AnyEntry, AnyEvent};
ghost use Rattle.desk_model.specs.Records.{IsSoundRecord};
ghost use Rattle.events.specs.declared.event.Event.{Event};
ghost use Rattle.certificate.specs.declared.Certificate.{Certificate};
ghost use Rattle.checker.specs.Refusals.{AreValid};
ghost use Rattle.recorder.specs.Histories.{AreEventsOf};
ghost use Rattle.transcript.specs.Accounts.{AreCertificatesOf};
ghost use Rattle.transcript.specs.Reading.{SoundWrittenDenotes, WrittenDenotes};

/// The certificates of a sound record are valid: one for each object of its history, and none
/// besides.
pub fn sound_record_is_accepted()
    ensures { (kinds : List Kind) (quota : ℕ) (journals : ℕ → List AnyEvent)
        (logs : ℕ → List AnyEntry)
        → IsSoundRecord kinds quota journals logs
        → (events : List Event) (certificates : List Certificate)
        → AreEventsOf journals events → AreCertificatesOf journals logs certificates
        → AreValid events certificates }
{}

/// The text of the lines of a record's history spells forms that denote it, if its tickets are
/// all the numbers below some number and its objects are at most 65,535, as in each sound record.
pub fn written_history_denotes()
    ensures written { WrittenDenotes }
    ensures sound { SoundWrittenDenotes }
{}

//! What the words of the command line and texts of settings promise.
ghost use Rattle.std.specs.Prelude.{◌≡◌, ℕ, List, Option, IsTrue};
ghost use Rattle.op_setup.specs.declared.tasks.Task.{Task};
ghost use Rattle.op_setup.specs.declared.config.Settings.{Settings};
ghost use Rattle.op_setup.specs.declared.config_cause.ConfigCause.{ConfigCause};
ghost use Rattle.op_setup.specs.Settings.{IsSettings};
ghost use Rattle.op_setup.specs.Causes.{IsFirstCause};
ghost use Rattle.op_setup.specs.Identities.{IsIdentity};
ghost use Rattle.op_setup.specs.Tasks.{DrillsLinks, IsTaskOf, has_flag};

/// No two tasks have the same words, and words of which one begins with `-` are no other task's than a
/// drill's of links.
pub fn words_are_unambiguous()
    ensures one { (words : List (List ℕ)) (s t : Task) → IsTaskOf words s → IsTaskOf words t → s ≡ t }
    ensures flag { (words : List (List ℕ)) (t : Task) → IsTrue (has_flag words) → IsTaskOf words t →
        DrillsLinks t }
{}

/// A text has one reading: no two settings, no two first causes, and not both.
pub fn settings_are_unambiguous()
    ensures one { (text : List ℕ) (id : Option ℕ) (s t : Settings) →
        IsSettings text id s → IsSettings text id t → s ≡ t }
    ensures first { (text : List ℕ) (id : Option ℕ) (c d : ConfigCause) →
        IsFirstCause text id c → IsFirstCause text id d → c ≡ d }
    ensures apart { (text : List ℕ) (id : Option ℕ) (s : Settings) (c : ConfigCause) →
        IsSettings text id s → IsFirstCause text id c → ⊥ }
{}

/// A text tells one identity: no two ids, names or rests.
pub fn identities_are_unambiguous()
    ensures { (text : List ℕ) (i j : ℕ) (m n a b : List ℕ) → IsIdentity text i m a → IsIdentity text j n b →
        (i ≡ j) × (m ≡ n) × (a ≡ b) }
{}

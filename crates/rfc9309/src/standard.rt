//! RFC 9309's reading of any file: a text that this library reads in that way, and the verdicts.
ghost use Rattle.std.specs.Prelude.{◌≡◌, ◌↔◌, ℕ, Bool, false, true, List, codes, map};
ghost use Rattle.rfc9309.specs.Matching.{IsMatch, Reading, all_stay, normal_uri};
ghost use Rattle.rfc9309.specs.StandardReading.{IsStandardVerdict, lines_for, pattern_of};
ghost use Rattle.rfc9309.specs.StandardReading.{mixed, mixed_text, sample, sample_text};
ghost use Rattle.rfc9309.specs.StandardReading.{standard_members, standard_text, written_rule};
ghost use Rattle.texting_robots.specs.Callers.{IsVerdict, Matches, file_bodies, file_lines, rules_for};

/// The text that stands for a file, whatever is in it:
///
/// - `verdicts`: the verdict of this library's rules for a crawler in the text, on the normal form of a path
///   and query (`all_stay`), is that of the standard for the file.
/// - `rules`: these are the text's rules for a crawler. A text is rejected, and there is no robot, if
///   one has a `$` and more than 4,096 bytes, each run of stars counted as one. That such a `$` is at its end
///   isn't stated.
/// - `matching`: a rule's path matches by the standard exactly if its pattern in the text does here.
/// - `lines`: the nth line of the text is the one that is written for the nth line of the file, so the number
///   of a deciding line of the text is the number of the file's line.
pub fn standard_texts_are_read_so()
    ensures verdicts { (agent file uri : List ℕ) (answer : Bool)
        → IsVerdict (rules_for agent (file_lines (standard_text file))) (normal_uri all_stay uri) answer
        ↔ IsStandardVerdict agent file uri answer }
    ensures rules { (agent file : List ℕ)
        → rules_for agent (file_lines (standard_text file)) ≡ map written_rule (standard_members agent file) }
    ensures matching { (stays : Reading) (path uri : List ℕ)
        → Matches (pattern_of stays path) (normal_uri stays uri) ↔ IsMatch stays path uri }
    ensures lines { (file : List ℕ) → file_bodies (standard_text file) ≡ lines_for file }
{}

/// Files and their texts, and a crawler that may fetch `/` of the first one here, but not by the standard.
pub fn example_of_a_standard_text()
    ensures text { standard_text sample ≡ sample_text }
    ensures mixed { standard_text mixed ≡ mixed_text }
    ensures here { IsVerdict (rules_for (codes "Googlebot") (file_lines sample)) (codes "/") true }
    ensures standard { IsStandardVerdict (codes "Googlebot") sample (codes "/") false }
{}

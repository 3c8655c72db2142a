//! Whole scripts, and what a run of each prints.

mod absences;
mod prunes;

use auth_store::script::run::{BAD_LINE, DONE, run_script};
use std::alloc::Global;
use std::test::Fail;

/// A script, and what a run of it prints and how it ends.
struct Script {
    name: &'static str,
    lines: &'static str,
    printed: &'static str,
    status: u8,
}

static SCRIPTS: [Script; 36] = [
    Script {
        name: "puts, commits, proves and checks",
        lines: "new mmr 0\n\
         open\n\
         put 0000000000000061 1\n\
         commit\n\
         get 0000000000000061\n\
         prove 0000000000000061\n\
         check value 0000000000000061 1\n\
         check value 0000000000000061 2\n",
        printed: "new\n\
         open 0\n\
         commit 1\n\
         value 1\n\
         present 1\n\
         yes\n\
         no\n",
        status: DONE,
    },
    Script {
        name: "an empty script prints nothing",
        lines: "",
        printed: "",
        status: DONE,
    },
    Script {
        name: "a second proof is checked against its own root",
        lines: "new mmr 0\n\
         open\n\
         put 0000000000000061 1\n\
         commit\n\
         prove 0000000000000061\n\
         put 0000000000000061 2\n\
         commit\n\
         prove 0000000000000061\n\
         check value 0000000000000061 2\n\
         check value 0000000000000061 1\n",
        printed: "new\n\
         open 0\n\
         commit 1\n\
         present 1\n\
         commit 2\n\
         present 2\n\
         yes\n\
         no\n",
        status: DONE,
    },
    Script {
        name: "a check before any proof is a bad line",
        lines: "new mmr 0\n\
         open\n\
         check value 0000000000000061 1\n",
        printed: "new\n\
         open 0\n\
         bad line 3\n",
        status: BAD_LINE,
    },
    Script {
        name: "a proof before any prove is a bad line",
        lines: "new mmr 0\n\
         open\n\
         proof\n",
        printed: "new\n\
         open 0\n\
         bad line 3\n",
        status: BAD_LINE,
    },
    Script {
        name: "each put of a batch is committed",
        lines: "new mmr 0\n\
         open\n\
         put 0000000000000061 1\n\
         put 0000000000000062 2\n\
         get 0000000000000061\n\
         commit\n\
         get 0000000000000061\n\
         get 0000000000000062\n",
        printed: "new\n\
         open 0\n\
         none\n\
         commit 1\n\
         value 1\n\
         value 2\n",
        status: DONE,
    },
    Script {
        name: "a line before a store is bad",
        lines: "open\n",
        printed: "bad line 1\n",
        status: BAD_LINE,
    },
    Script {
        name: "a line before a store is open is bad: get",
        lines: "new mmr 0\n\
         get 0000000000000061\n",
        printed: "new\n\
         bad line 2\n",
        status: BAD_LINE,
    },
    Script {
        name: "a line before a store is open is bad: root",
        lines: "new mmr 0\n\
         root\n",
        printed: "new\n\
         bad line 2\n",
        status: BAD_LINE,
    },
    Script {
        name: "a line before a store is open is bad: commit",
        lines: "new mmr 0\n\
         commit\n",
        printed: "new\n\
         bad line 2\n",
        status: BAD_LINE,
    },
    Script {
        name: "a line before a store is open is bad: prove",
        lines: "new mmr 0\n\
         prove 0000000000000061\n",
        printed: "new\n\
         bad line 2\n",
        status: BAD_LINE,
    },
    Script {
        name: "a second new is bad",
        lines: "new mmr 0\n\
         new mmr 0\n",
        printed: "new\n\
         bad line 2\n",
        status: BAD_LINE,
    },
    Script {
        name: "a second open is bad",
        lines: "new mmr 0\n\
         open\n\
         open\n",
        printed: "new\n\
         open 0\n\
         bad line 3\n",
        status: BAD_LINE,
    },
    Script {
        name: "what is no line is bad: an unknown word",
        lines: "new mmr 0\n\
         hop\n",
        printed: "new\n\
         bad line 2\n",
        status: BAD_LINE,
    },
    Script {
        name: "what is no line is bad: a sign",
        lines: "new mmr 0\n\
         put 0000000000000061 +1\n",
        printed: "new\n\
         bad line 2\n",
        status: BAD_LINE,
    },
    Script {
        name: "what is no line is bad: two spaces",
        lines: "new mmr 0\n\
         put  0000000000000061 1\n",
        printed: "new\n\
         bad line 2\n",
        status: BAD_LINE,
    },
    Script {
        name: "what is no line is bad: fifteen digits",
        lines: "new mmr 0\n\
         put 000000000000061 1\n",
        printed: "new\n\
         bad line 2\n",
        status: BAD_LINE,
    },
    Script {
        name: "what is no line is bad: a number past 64 bits",
        lines: "new mmr 0\n\
         put 0000000000000061 18446744073709551616\n",
        printed: "new\n\
         bad line 2\n",
        status: BAD_LINE,
    },
    Script {
        name: "empty lines are skipped and counted",
        lines: "\n\
         new mmr 0\n\n\
         hop\n",
        printed: "new\n\
         bad line 4\n",
        status: BAD_LINE,
    },
    Script {
        name: "a root after two keys, as a program that was made apart has it",
        lines: "new mmr 2635543194\n\
         open\n\
         put a8ea835da6f79a61 6405976763092270079\n\
         put ffffffffffffffff 9\n\
         get ffffffffffffffff\n\
         commit\n\
         root\n\
         prove a8ea835da6f79a61\n\
         commit\n",
        printed: "new\n\
         open 0\n\
         none\n\
         commit 1\n\
         root f28ad3dfed991fcead1d5ba5e01749a1d796138b4f14305ce5fd0dddc3800d49\n\
         present 6405976763092270079\n\
         commit 2\n",
        status: DONE,
    },
    Script {
        name: "proofs kept over later commits, as a program that was made apart has it",
        lines: "new mmr 1849365471\n\
         open\n\
         commit\n\
         commit\n\n\
         put 0000000000000063 0\n\
         put 376eac477e3c7bfe 2\n\
         commit\n\
         commit 0\n\
         commit\n\n\
         put 0000000000000061 525\n\
         put 74E08C0ECCA65BDB 743\n\
         put 74e08c0ecca65bdb 12907861783500239869\n\
         put F67B0ABA9F0745E9 9\n\
         prove 376eac477e3c7bfe\n\
         put 0000000000000063 740270670955433366\n\
         commit\n\
         commit\n\
         root\n\
         proof\n\
         check value 376eac477e3c7bfe 2\n\
         put 376eac477e3c7bfe 18446744073709551615\n\
         check value 376EAC477E3C7BFE 2\n\
         proof\n\
         put 0000000000000100 18446744073709551615\n\
         commit\n\
         commit\n\
         put 74E08C0ECCA65BDB 9\n\
         put 203de48b6a24a0e7 1\n\
         commit\n\
         put 203de48b6a24a0e7 18446744073709551615\n\
         put 376EAC477E3C7BFE 13874067492201363848\n\
         commit\n",
        printed: "new\n\
         open 0\n\
         commit 1\n\
         commit 2\n\
         commit 3\n\
         commit 4\n\
         commit 5\n\
         present 2\n\
         commit 6\n\
         commit 7\n\
         root e63c123980dc73421a91e6593fe43273d69ff8a55530ca5aebc41e6266e62f70\n\
         proof 04980800033799db3425579915cba17b76ea3564be88089133897c7a7903fa9b6a129214ccd812cdda930b3b81973224bd3b030308a3a0716b5a7ddd0ede93616d17541cc46e97e9323849c31194a777dde7f81874e2ecf349f6fafabc03b7d9f022ea98d5001190d933f937280baf50c81813f703dcdfbf74728712abccf9432e319887d1cf0000000000000063\n\
         yes\n\
         yes\n\
         proof 04980800033799db3425579915cba17b76ea3564be88089133897c7a7903fa9b6a129214ccd812cdda930b3b81973224bd3b030308a3a0716b5a7ddd0ede93616d17541cc46e97e9323849c31194a777dde7f81874e2ecf349f6fafabc03b7d9f022ea98d5001190d933f937280baf50c81813f703dcdfbf74728712abccf9432e319887d1cf0000000000000063\n\
         commit 8\n\
         commit 9\n\
         commit 10\n\
         commit 11\n",
        status: DONE,
    },
    Script {
        name: "puts without a commit, as a program that was made apart has it",
        lines: "new mmr 2014883572\n\
         open\n\
         put 0000000000000100 18446744073709551615\n\
         put 00000000000000ff 1\n\
         put 0000000000000063 9\n\
         put 0000000000000063 0\n\
         put d3167c9bfd97eda8 0\n",
        printed: "new\n\
         open 0\n",
        status: DONE,
    },
    Script {
        name: "a delete that a cut stops is gone after a crash",
        lines: "new mmr 0\n\
         open\n\
         put 0000000000000061 1\n\
         commit\n\
         cut 0\n\
         del 0000000000000061\n\
         commit\n\
         get 0000000000000061\n\
         close\n\
         crash\n\
         open\n\
         get 0000000000000061\n",
        printed: "new\n\
         open 0\n\
         commit 1\n\
         ok\n\
         error S2\n\
         error S6\n\
         closed\n\
         crashed\n\
         open 1\n\
         value 1\n",
        status: DONE,
    },
    Script {
        name: "a rate above one is bad",
        lines: "new mmr 0\n\
         fault write 3 2\n",
        printed: "new\n\
         bad line 2\n",
        status: BAD_LINE,
    },
    Script {
        name: "a rate without a denominator is bad",
        lines: "new mmr 0\n\
         fault sync 0 0\n",
        printed: "new\n\
         bad line 2\n",
        status: BAD_LINE,
    },
    Script {
        name: "a fault of a kind that no script names is bad",
        lines: "new mmr 0\n\
         fault remove 1 2\n",
        printed: "new\n\
         bad line 2\n",
        status: BAD_LINE,
    },
    Script {
        name: "floors and lengths, a delete and metadata over an MMB, as a program that was made apart has it",
        lines: "new mmb 5\n\
         open\n\
         floor\n\
         len\n\
         put 0000000000000061 1\n\
         commit\n\
         put 0000000000000063 3\n\
         commit\n\
         floor\n\
         len\n\
         del 0000000000000061\n\
         commit 7\n\
         floor\n\
         len\n\
         root\n\
         get 0000000000000061\n\
         prove 0000000000000063\n\
         proof\n\
         check value 0000000000000063 3\n\
         check value 0000000000000063 4\n",
        printed: "new\n\
         open 0\n\
         floor 0\n\
         len 1\n\
         commit 1\n\
         commit 2\n\
         floor 3\n\
         len 6\n\
         commit 3\n\
         floor 7\n\
         len 9\n\
         root 6621f09729cddfe7a0bee530fe78e4faab28ec8f891e43193f3dca08131e95a6\n\
         none\n\
         present 3\n\
         proof 078009000414a5cd06557f472a7375c5918a9cea0ffd816d6da64b12f953b41c8cfd7ced49122d3a14eadb33f446d9dfe17076b827e0717504ee9a64b288b19a988122445223297500c18ff592bd5615a6bc90ab1edc98044c19846c193f23343b2aa44235be0e55ba53f06182c08b0b34c4096c5c8d2c1767fbbb98033e8f0534de132c770176be8b528d0075f7aae98d6fa57a6d3c83ae480a8469e668d7b0af968995ac71014bf5122f344554c53bde2ebb8cd2b7e3d1600ad631c385a5d7cce23c7785459ac916c71047b3fea0fa28ebeed641b794b9ebd87f9dd07e7662deb2e3cc799ea20000000000000063\n\
         yes\n\
         no\n",
        status: DONE,
    },
    Script {
        name: "of a put and a delete of one key in a batch the later one wins",
        lines: "new mmb 0\n\
         open\n\
         put 0000000000000061 1\n\
         del 0000000000000061\n\
         commit\n\
         get 0000000000000061\n\
         del 0000000000000062\n\
         put 0000000000000062 2\n\
         commit\n\
         get 0000000000000062\n\
         len\n",
        printed: "new\n\
         open 0\n\
         commit 1\n\
         none\n\
         commit 2\n\
         value 2\n\
         len 4\n",
        status: DONE,
    },
    Script {
        name: "a mode keeps the rates, and a rate the mode and the other rates",
        lines: "new mmr 3\n\
         open\n\
         fault sync 1 1\n\
         mode prefix\n\
         fault read 1 2\n\
         put 0000000000000061 1\n\
         commit\n\
         close\n\
         fault sync 0 1\n\
         open\n\
         get 0000000000000061\n",
        printed: "new\n\
         open 0\n\
         ok\n\
         ok\n\
         ok\n\
         error S1\n\
         closed\n\
         ok\n\
         open 0\n\
         none\n",
        status: DONE,
    },
    Script {
        name: "an opening that fails leaves the store closed",
        lines: "new mmb 9\n\
         fault open 1 1\n\
         open\n\
         open\n\
         fault open 0 1\n\
         open\n\
         root\n",
        printed: "new\n\
         ok\n\
         error S1\n\
         error S1\n\
         ok\n\
         open 0\n\
         root c53c021671c9918572a3d8618becb5aebdf33a769b5becc4ca7163482bf9748d\n",
        status: DONE,
    },
    Script {
        name: "writes that fail by halves, cuts and crashes, as a program that was made apart has it",
        lines: "new mmb 77\n\
         open\n\
         put 0000000000000061 1\n\
         put 0000000000000062 2\n\
         commit\n\
         fault write 1 2\n\
         put 0000000000000063 3\n\
         commit\n\
         put 0000000000000063 4\n\
         commit\n\
         close\n\
         crash\n\
         open\n\
         close\n\
         fault write 0 1\n\
         open\n\
         get 0000000000000063\n\
         cut 1\n\
         del 0000000000000062\n\
         commit\n\
         close\n\
         crash\n\
         open\n\
         get 0000000000000062\n\
         len\n\
         root\n",
        printed: "new\n\
         open 0\n\
         commit 1\n\
         ok\n\
         error S1\n\
         error S6\n\
         closed\n\
         crashed\n\
         open 1\n\
         closed\n\
         ok\n\
         open 1\n\
         none\n\
         ok\n\
         error S2\n\
         closed\n\
         crashed\n\
         open 1\n\
         value 2\n\
         len 4\n\
         root 2d6f2e631aacee5c425b00cac747aa0ec22a04f4799b4d1f6e16435d85c18b61\n",
        status: DONE,
    },
    Script {
        name: "an opening after a close is of the same device",
        lines: "new mmr 1\n\
         open\n\
         put 0000000000000061 1\n\
         commit\n\
         close\n\
         open\n\
         get 0000000000000061\n\
         crash\n",
        printed: "new\n\
         open 0\n\
         commit 1\n\
         closed\n\
         open 1\n\
         value 1\n\
         bad line 8\n",
        status: BAD_LINE,
    },
    Script {
        name: "a close of no store is bad",
        lines: "new mmr 0\n\
         open\n\
         close\n\
         close\n",
        printed: "new\n\
         open 0\n\
         closed\n\
         bad line 4\n",
        status: BAD_LINE,
    },
    Script {
        name: "a cut before the first opening",
        lines: "new mmr 0\n\
         cut 1\n\
         open\n\
         crash\n\
         open\n\
         len\n",
        printed: "new\n\
         ok\n\
         error S2\n\
         crashed\n\
         open 0\n\
         len 1\n",
        status: DONE,
    },
    Script {
        name: "a cut before the first line is bad",
        lines: "cut 0\n",
        printed: "bad line 1\n",
        status: BAD_LINE,
    },
    Script {
        name: "a second line of the other family is bad",
        lines: "new mmb 0\n\
         new mmr 0\n",
        printed: "new\n\
         bad line 2\n",
        status: BAD_LINE,
    },
];

// Whether a run of the script prints what it says, and ends so.
fn runs_as_said(alloc: Global, script: &Script) -> bool {
    let mut reader = script.lines.as_bytes();
    let mut out = Vec::new(alloc);
    let end = run_script(alloc, &mut reader, &mut out);
    out.as_slice() == script.printed.as_bytes() && end.status == script.status
}

#[test]
fn each_script_prints_what_it_says(rt: HostRuntime) -> Result<(), Fail> {
    for script in &SCRIPTS {
        let name = script.name;
        assert!(rt; runs_as_said(rt.alloc(), script), "{name}");
    }
    Ok(())
}

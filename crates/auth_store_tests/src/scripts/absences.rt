//! Scripts that prove keys absent.

use super::{Script, runs_as_said};
use auth_store::script::run::{BAD_LINE, DONE};
use std::test::Fail;

static SCRIPTS: [Script; 8] = [
    Script {
        name: "in an empty map a key is absent",
        lines: "new mmr 0\n\
         open\n\
         prove 0000000000000061\n\
         check absent 0000000000000061\n\
         check absent 0000000000000062\n\
         check value 0000000000000061 0\n\
         proof\n",
        printed: "new\n\
         open 0\n\
         absent\n\
         yes\n\
         yes\n\
         no\n\
         proof 020001010000014bf5122f344554c53bde2ebb8cd2b7e3d1600ad631c385a5d7cce23c7785459ab78fc9a35494acffb38d78d73e5ca5aff8c4ebb2e4b537ac503e8a4a6cbeeffd00\n",
        status: DONE,
    },
    Script {
        name: "a key between two others is absent, as a program that was made apart has it",
        lines: "new mmb 0\n\
         open\n\
         put 0000000000000061 1\n\
         put 0000000000000063 3\n\
         commit\n\
         prove 0000000000000062\n\
         check absent 0000000000000062\n\
         check absent 0000000000000061\n\
         check absent 0000000000000063\n\
         check value 0000000000000061 1\n\
         check value 0000000000000062 1\n\
         check absent 0000000000000064\n\
         proof\n\
         root\n",
        printed: "new\n\
         open 0\n\
         commit 1\n\
         absent\n\
         yes\n\
         no\n\
         no\n\
         no\n\
         no\n\
         no\n\
         proof 01010e0400029b95416f66ace95e1ad4abb68daa3ff15f3d138e00e3d7550069e26b50668e61b9f349a44b974cccb550e70480b4cfb577e31b9a1e8fde13e9b36b99b10a7ac400014d7b3ef7300acf70c892d8327db8272f54434adbc61a4e130a563cb59a0d0f47102bd7e532430da9d782aa97a6104aeada4041d1b6186ae96dd87071ed3191e8000000000000006100000000000000010000000000000063\n\
         root dfeac00242e289b7aabc6657980fbd207d8e3dc3c87d6ce64a0184269d96a472\n",
        status: DONE,
    },
    Script {
        name: "keys around all others are absent, as a program that was made apart has it",
        lines: "new mmr 0\n\
         open\n\
         put 0000000000000061 1\n\
         commit\n\
         put 0000000000000063 3\n\
         commit\n\
         prove 0000000000000060\n\
         check absent 0000000000000060\n\
         check absent ffffffffffffffff\n\
         check absent 0000000000000062\n\
         proof\n\
         prove 0000000000000061\n\
         check absent 0000000000000062\n\
         check value 0000000000000061 1\n",
        printed: "new\n\
         open 0\n\
         commit 1\n\
         commit 2\n\
         absent\n\
         yes\n\
         yes\n\
         no\n\
         proof 010438060002dec56288cff0e12d88084f1d31e54293ff8ac215d3bb6089c72b04c570d5c857d812cdda930b3b81973224bd3b030308a3a0716b5a7ddd0ede93616d17541cc4012c624232cdd221771294dfbb310aca000a0df6ac8b66b696d90ef06fdefb64a3f57652c43386d1f85883d0f9880e83660a72046bdb4948a3397fb182a7809e36000000000000006300000000000000030000000000000061\n\
         present 1\n\
         no\n\
         yes\n",
        status: DONE,
    },
    Script {
        name: "in an emptied map every key is absent by the last commit, as a program that was made apart has it",
        lines: "new mmr 0\n\
         open\n\
         put 0000000000000061 1\n\
         commit\n\
         put 0000000000000063 3\n\
         commit\n\
         del 0000000000000061\n\
         commit\n\
         prove 0000000000000061\n\
         check absent 0000000000000061\n\
         check absent 0000000000000062\n\
         del 0000000000000063\n\
         commit 7\n\
         prove 0000000000000063\n\
         check absent 0000000000000061\n\
         check absent 0000000000000063\n\
         check absent FFFFFFFFFFFFFFFF\n\
         check value 0000000000000063 3\n\
         proof\n\
         root\n",
        printed: "new\n\
         open 0\n\
         commit 1\n\
         commit 2\n\
         commit 3\n\
         absent\n\
         yes\n\
         yes\n\
         commit 4\n\
         absent\n\
         yes\n\
         yes\n\
         yes\n\
         no\n\
         proof 020a040b0102a0d9d8233d5461e47a66cde11e14921aedffb4359bf2d22ea6496f4154c3b2e8103e6b99091b89af7711edc6cbf4eeb0c321fa10b6c5b1c42cf83ef26749901301e52d9c508c502347344d8c07ad91cbd6068afc75ff6292f062a09ca381c89e710fb33ddd52a166a2a8118c925125694bf8cae6a4e7908a12928f746b851ea443010000000000000007\n\
         root 424f0c49cd129b962bfcebf7c5579bb565384a6387b0227afa14749d24f4d6c1\n",
        status: DONE,
    },
    Script {
        name: "a proof of absence is checked against its own root",
        lines: "new mmb 0\n\
         open\n\
         prove 0000000000000061\n\
         put 0000000000000061 1\n\
         commit\n\
         check absent 0000000000000061\n\
         check value 0000000000000061 1\n\
         prove 0000000000000061\n\
         check absent 0000000000000061\n\
         check value 0000000000000061 1\n",
        printed: "new\n\
         open 0\n\
         absent\n\
         commit 1\n\
         yes\n\
         no\n\
         present 1\n\
         no\n\
         yes\n",
        status: DONE,
    },
    Script {
        name: "what is no line is bad: a check of neither",
        lines: "new mmr 0\n\
         open\n\
         check 0000000000000061\n",
        printed: "new\n\
         open 0\n\
         bad line 3\n",
        status: BAD_LINE,
    },
    Script {
        name: "a check of an absence before any proof is a bad line",
        lines: "new mmr 0\n\
         open\n\
         check absent 0000000000000061\n",
        printed: "new\n\
         open 0\n\
         bad line 3\n",
        status: BAD_LINE,
    },
    Script {
        name: "what is no line is bad: a check of an absence with a value",
        lines: "new mmr 0\n\
         open\n\
         prove 0000000000000061\n\
         check absent 0000000000000061 1\n",
        printed: "new\n\
         open 0\n\
         absent\n\
         bad line 4\n",
        status: BAD_LINE,
    },
];

#[test]
fn each_absence_prints_what_it_says(rt: HostRuntime) -> Result<(), Fail> {
    for script in &SCRIPTS {
        let name = script.name;
        assert!(rt; runs_as_said(rt.alloc(), script), "{name}");
    }
    Ok(())
}

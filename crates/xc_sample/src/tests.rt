// The whole texts of a sample.
use crate::{root_value, sample};
use std::test::Fail;

const SCHEMA: &str =
    "<?xml version=\"1.0\" encoding=\"UTF-8\"?>\n<xs:schema xmlns:xs=\"http://www.w3.org/2001/XMLSchema\" xmlns:xbrli=\"http://www.xbrl.org/2003/instance\" targetNamespace=\"urn:xcalc:sample\">\n<xs:element name=\"N0\" id=\"s_N0\" type=\"xbrli:monetaryItemType\"/>\n<xs:element name=\"N1\" id=\"s_N1\" type=\"xbrli:monetaryItemType\"/>\n<xs:element name=\"N2\" id=\"s_N2\" type=\"xbrli:monetaryItemType\"/>\n</xs:schema>\n";

const LINKBASE: &str =
    "<?xml version=\"1.0\" encoding=\"UTF-8\"?>\n<link:linkbase xmlns:link=\"http://www.xbrl.org/2003/linkbase\" xmlns:xlink=\"http://www.w3.org/1999/xlink\">\n<link:calculationLink xlink:type=\"extended\" xlink:role=\"urn:xcalc:sample\">\n<link:loc xlink:type=\"locator\" xlink:href=\"sample.xsd#s_N0\" xlink:label=\"L0\"/>\n<link:loc xlink:type=\"locator\" xlink:href=\"sample.xsd#s_N1\" xlink:label=\"L1\"/>\n<link:loc xlink:type=\"locator\" xlink:href=\"sample.xsd#s_N2\" xlink:label=\"L2\"/>\n<link:calculationArc xlink:type=\"arc\" xlink:arcrole=\"https://xbrl.org/2023/arcrole/summation-item\" xlink:from=\"L0\" xlink:to=\"L1\" order=\"1\" weight=\"1\"/>\n<link:calculationArc xlink:type=\"arc\" xlink:arcrole=\"https://xbrl.org/2023/arcrole/summation-item\" xlink:from=\"L0\" xlink:to=\"L2\" order=\"1\" weight=\"1\"/>\n</link:calculationLink>\n</link:linkbase>\n";

const REPORT: &str =
    "{\"documentInfo\":{\"documentType\":\"https://xbrl.org/2021/xbrl-json\",\"namespaces\":{\"eg\":\"urn:xcalc:sample\",\"e\":\"http://example.com/e\",\"iso4217\":\"http://www.xbrl.org/2003/iso4217\",\"cur\":\"http://www.xbrl.org/2003/iso4217\"},\"taxonomy\":[\"sample.xsd\"]},\"facts\":{\"f0\":{\"value\":\"4\",\"decimals\":0,\"dimensions\":{\"concept\":\"eg:N0\",\"entity\":\"e:1\",\"period\":\"2024-01-01T00:00:00\",\"unit\":\"iso4217:EUR\"}},\"f1\":{\"value\":\"1\",\"decimals\":0,\"dimensions\":{\"concept\":\"eg:N1\",\"entity\":\"e:1\",\"period\":\"2024-01-01T00:00:00\",\"unit\":\"iso4217:EUR\"}},\"f2\":{\"value\":\"2\",\"decimals\":0,\"dimensions\":{\"concept\":\"eg:N2\",\"entity\":\"e:1\",\"period\":\"2024-01-01T00:00:00\",\"unit\":\"iso4217:EUR\"}}}}";

#[test]
fn sample_of_three(rt: HostRuntime) -> Result<(), Fail> {
    let sample = sample(rt.alloc(), 3)?;
    assert_eq!(rt; sample.schema.as_slice(), SCHEMA.as_bytes());
    assert_eq!(rt; sample.linkbase.as_slice(), LINKBASE.as_bytes());
    assert_eq!(rt; sample.report.as_slice(), REPORT.as_bytes());
    assert_eq!(rt; root_value(rt.alloc(), 5)?, 10);
    Ok(())
}
